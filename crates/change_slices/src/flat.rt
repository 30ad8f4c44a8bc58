// The changes of a tool in flat lists, where they are no more than the records that are lent.
ghost use Rattle.std.specs.Prelude.{◌≡◌};
ghost use Rattle.cuts.specs.Tool.{preview_tool};
ghost use Rattle.change_slices.specs.Proposal.{narrow_answer, count_in, ListsIn};

use changes::ChangeList;
use cuts::Tool;
use refusals::Refusal;
use stock::TurnStock;

// The same answer where it counts no more than room changes; 6.
fn narrow(answer: Result<ChangeList, Refusal>, room: usize) -> Result<ChangeList, Refusal>
    ensures { result ≡ narrow_answer room answer }
{
    let list = answer?;
    if room < list.count {
        return Err(Refusal::ChangesOverRoom);
    }
    Ok(list)
}

// The changes of a tool in the flat lists, where they are no more than room.
pub fn list(
    stock: TurnStock,
    cells: &[f64],
    tool: Tool,
    beside: &[f64],
    room: usize,
    indices: &mut [usize],
    records: &mut [f64],
) -> Result<ChangeList, Refusal>
    ensures { ListsIn stock.stamp room (preview_tool stock.spec cells.now tool beside.now) result indices records }
{
    let answer = cuts::preview_tool(stock, cells, tool, beside, indices, records);
    narrow(answer, room)
}

// How many changes an answer counts; none where it is a refusal.
pub fn count_of(answer: Result<ChangeList, Refusal>) -> usize
    ensures { result ≡ count_in answer }
{
    match answer {
        Ok(list) => list.count,
        Err(_) => 0,
    }
}
