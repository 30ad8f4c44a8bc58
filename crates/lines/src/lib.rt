#![tactic(auto)]

// Files of lines, read as their bytes come, cut anywhere.
//
// There is no code here. `specs/File` says what a whole file does, line by line: what a line does to
// the state, what a line that is too long does, and whether to stop, are the caller's. `specs/Hands`
// takes the bytes one at a time with the unfinished line in hand, and `proofs/AnyCut` shows that
// however the input is cut into parts, the state at its end is that of the whole file.
