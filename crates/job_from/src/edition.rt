// The edition of the stock that is kept: the third argument's, or that of the stock that is gone on with.
use std::rt::Env;
use stock::{Stamp, TurnStock};

// The third argument is no edition: 8 digits, `0` to `9` and `A` to `F`.
#[derive(Clone, Copy)]
pub struct NoEdition;

// The edition that the third argument asks for, where there is one.
pub fn third_argument(rt: &impl Env) -> Result<Option<u32>, NoEdition> {
    if streams::argument_count(rt) < 4 {
        return Ok(None);
    }
    let mut field = io::buffer();
    let n = streams::argument(rt, 3, &mut field);
    let edition = text::read_eight(&field[..n]).ok_or(NoEdition)?;
    Ok(Some(edition))
}

// The same stock, of the edition that is asked for.
pub fn of_edition(asked: Option<u32>, stock: TurnStock) -> TurnStock {
    let stamp = Stamp {
        edition: asked.unwrap_or(stock.stamp.edition),
        ..stock.stamp
    };
    TurnStock { stamp, ..stock }
}
