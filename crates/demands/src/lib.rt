// The demands on the calls, as theorems about the rules that the calls are proved to follow.
//
// There is no code here. The rules are definitions of the crates below (`preview_cut`, `apply_of`,
// `remove_ring`, `move_of`, ..), and each call's promise says that it answers by its rule.
//
// Demand 1, each refusal exactly when (`proofs/First`, `proofs/LeftAlone`). `specs/Refused` lists the
// tests of each call in order, each with its reason: its number, and its place where it has one.
// `Exactly` says that the rule refuses with k exactly when the first test that does not hold has the
// reason k, and answers exactly when all hold.
// One law gives it for every rule (`proofs/Asking`). A refused call leaves every lent buffer. Of a job
// (`proofs/JobLines`, with `specs/Offending`): it is refused at line m with k exactly when line m is the
// first that offends, and with k.
//
// Which change it was (`proofs/Which`, with `specs/Which`): a place that is given is in its list; the
// changes before it pass, and it passes the tests before its number and fails that one; the indices
// before a fall rise, and the rings before a bad one are good. A list that passes on one stock is, on
// another, accepted or refused with 22 at the first bin that differs. The difference of two stocks is,
// on the first, accepted or refused with 23 at the first change that adds material.
//
// A list is of one stock at one generation (`proofs/Stale`, with `specs/History`): a list of another
// edition or of another generation is refused, whatever its records are and whatever the stock holds,
// with 19 where what is asked of the stock before holds, and changes nothing. Through any calls
// generations only rise and the edition is kept, so that a list whose stock has gone on is refused ever
// after, until a rebuild. A list out of a preview is of the stock that it was proposed for.
//
// Demand 2, what the answers are (`proofs/Second`, with `specs/Wrote`): the root is the nearest value;
// a preview lists the change of each bin that the cut changes and no other, and its count is that of
// the records written; a commit writes each change and touches no other bin; what a preview proposes
// a commit accepts. The programs that this excludes are named there one by one. In the domain every
// root and every length that a nose asks for answers (`proofs/NoseAnswers`). What `fill` leaves is a
// stock, and the bounds of a cell that fits are finite (`proofs/Cells`).
//
// Each promise allows one outcome (`proofs/Once`): two answers that meet it are the same, and so is each
// lent buffer. Every public call is listed there with the law that covers it.
//
// Narrow look, full look (`proofs/Profile`): `radius_at` and `radius_range` look at a part of an
// envelope's points. Whatever outcome meets their promise, or that of the methods of an `Envelope`
// made by `new`, is refused exactly where the points or the query are outside the domain, and is
// else, for lo <= hi, the look at all segments in order. Crate `envelope` has the law behind it,
// once for every order (`narrow-full`).
//
// Arcs (`proofs/Arcs`): the chords of an accepted profile are segments that a nose takes. Crate `profile`
// has what they are (`proofs/Laws`): they join by equal bits, begin and end where the profile does, are
// 1 to 1,024 a segment, finite, and each sag is from 0 to the tolerance.
//
// Whether an insert touches (`proofs/Inserts`): what excess and penetration answer is given by some
// candidate, and no candidate has more; nothing is answered exactly where no candidate gives anything;
// what is eroded is the least over the samples of its window, less the tolerance. Crate `insert` has the
// laws behind it (`proofs/Best`, `proofs/Eroding`).
//
// The most that may remain at a height (`proofs/Sees`): what an accepted commit leaves shows nothing
// there, or a band within the one before. Crate `queries` has what an answer says of the bins that are
// looked at (`proofs/Sights`).
//
// Numbers kept beside the cells (`proofs/Kept`, over `proofs/Matched`): from numbers that match the cells
// any accepted commits, moves and rings lead to numbers that match, and a rebuild has them whatever stood
// there. With them no later call gives 20, and a range answers what the walk over its bins says; after an
// accepted commit it shows nothing, or a band within the one before. Crate `blocks` has the laws behind it
// (`proofs/Ranges`, `proofs/Stocks`, `proofs/Laws`).
//
// Jobs longer than memory (`proofs/Streamed`): however the bytes of a job are cut into parts for
// `take_part`, and whatever the lent room held, the bytes that `output_line` puts after `finish` are the
// answer to the whole file. `proofs/JobNumbers`: a job is refused with 1, 2, 5, 11, 13 or 15, and with
// 12 only where its generation is the last; and its cells and rings fit after every line.
//
// Stock files (`proofs/Files`): however the bytes of a file are cut into parts, `finish` tells what the
// whole file tells, and the lent room holds what that leaves; a stock's file, read in a room that
// reaches, tells that stock; a file that tells a stock is the file of what it left, and so the only one;
// where a line is refused every file that begins so is refused there, and whole lines that are not
// begin some file; 16 is told at a line exactly when those before it begin some file of the form and
// with it they begin none (`refused-exactly`); the room holds the numbers of the lines before that, each
// at its place, and what no line was written to stays (`file-room`); and the rings of a file that reads
// come back from `from_parts` as they stand, in order (`rings-come-back`). Crate `stock_file` has the
// laws behind it.
//
// Two stocks side by side (`proofs/SideBySide`): the lines of cells are the changes from the first to
// the second; the written rings cover what exactly one of the two stores covers, each point once; no
// byte is written exactly where the cells are equal and the same points are covered; with the stocks
// exchanged the parts change places; and so it is however the files are cut. The first's written rings,
// taken one by one into the second's store, make it cover what either covers (`compared-joins`). Each
// written ring reads back from its line (`proofs/SideLines`). Crate `side_by_side` has the laws behind
// it.
//
// Passes checked (`proofs/Passes`): the answer is yes exactly when what is asked first holds, every cut,
// previewed and committed in turn, is accepted, and every bin then meets its target (`yes-exactly`); a no
// names the first cut that is refused or the first bin that misses (`cut-exactly`, `bin-exactly`), and
// leaves the old cells with their kept numbers. `proofs/PassesTurned`: a yes leaves a stock at as many
// generations on as there are cuts, whose kept numbers match (`yes-stock`, `yes-generation`,
// `blocks-match`); a cut fails with 13, 5 or 12 alone, and why (`fails_by`, `never-six`); with a cut more
// outer bounds only fall (`more-cuts`). `proofs/PassesOrder`: the same cuts in another order give the same
// yes, cells and generation, or the same bin (`yes-any-order`, `calls-any-order`, `bin-any-order`), and
// each bin is left with the closed form, its inner pair as it was (`yes-closed`, `yes-deepest`,
// `yes-inner`). `proofs/PassesProposed`: a proposed cut whose numbers are at most 1e6 in size is in its
// domain, and accepted while generations last (`proposed-accepted`). Crate `passes` has the laws of the
// two calls.
//
// Demand 3, of cuts: below. Of rings (`proofs/Rings`): accepted rings cover the same points in every
// order, and no two stored rings share one; so it is of single rings, of a list, of a move, of several
// moves in two orders and of a stock rebuilt, by the rules and in the lent memory that the calls leave.
//
// A job is a list of cuts over one stock, each previewed and then committed. `specs/Tool` names the
// cuts. `specs/Run` is a run of the calls, by their promises. `specs/Job` puts the rules one after the
// other, refusals included.
//
// Demand 3 of a run of calls (`proofs/Calls`), over a stock that is not refused:
// - `run-leaves`: each bin that one side only reaches is left with the closed form: each bound the
//   deepest of its start and the cuts' own bounds, those after floor or ceiling, then the pair
//   ordered.
// - `run-any-order`: cuts of one side leave the same cells and generation in every order.
// - `run-any-order-bin`: with both sides in the list, each bin that one side only reaches is left
//   with the same cell.
// - `run-however-often`: the same cuts, each made as often as one likes, leave the same cells.
// - `run-deepest`: the closed form in words: each bound is one of its start and the cuts' own bounds,
//   and none of those lies deeper.
//
// The same of other runs (`proofs/Runs`): with the change list as records (`records-ran`), with commits
// that ask nothing again (`unasked-ran`), and of calls whose answers are not known beforehand: with room
// for every cell, cuts in their domain and generations to spare, whatever meets the promises is accepted
// (`tried-accepted`), so that every order is (`tried-any-order`). Of a job (`proofs/JobOrder`,
// `proofs/JobHeld`): lines that are cuts of one side write the same bytes in every order, where no line
// is refused (`job-order`).
//
// By the rules alone (`proofs/Tools`: `tools-leave`, `tools-any-order`, `tools-any-order-bin`,
// `tools-however-often`) the same holds, and no cut is refused: where every cut is in its domain,
// there is room for a change in every cell and there are generations to spare. `proofs/InTurn` and
// `proofs/Third` have it for any preview whose cut reaches plain numbers, so that a new kind of cut
// is one case more in `Tool`.
//
// What a preview proposes, a commit on the same stock accepts while generations last:
// `preview-commits`, and through the lent lists `lent-turned` and `lent-commits` (`proofs/InTurn`).
// A difference, committed, gives the second stock's cells where that only removes:
// `difference-committed` (crate `changes`, `proofs/Becomes`).
//
// `proofs/Example` has jobs to which this applies, from outside and from inside, with a nose and a
// polygon, the runs of calls that make them, and a bin that both sides reach, where the order does show;
// `proofs/ExampleRings` a ring taken, a move, a stock rebuilt, a job refused and a line carried out. `proofs/LeastChord` computes a nose that the rules certify to
// metal that it does not cut: the demands are about the rules, and this is what the rules say. Crate
// `reach` says in `proofs/Forms` what a cut and the closed form are for each side in least and
// greatest, and in `proofs/Deepest` what a deepest bound is.
#![tactic(auto)]
