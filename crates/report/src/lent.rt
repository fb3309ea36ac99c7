// Reports, put into lent room.
ghost use Rattle.std.specs.Prelude.{◌≡◌};
ghost use Rattle.report.specs.Lent.{IsPut};
ghost use Rattle.report.specs.declared.lent.Unput.TheVariants.{Unwritten as NotWritten, Refused};

use crate::put::text_of;
use circuit::{Circuit, Refusal};
use claim::Claim;
use std::alloc::Global;
use writing::Unwritten;

// Why a report was not put into lent room.
#[derive(Clone, Copy, PartialEq, Debug)]
pub enum Unput {
    // It has no text.
    Unwritten(Unwritten),
    // The room is too short.
    Refused(Refusal),
}

impl From<Unwritten> for Unput {
    ghost from_gives = { λ u e. e ≡ NotWritten u };

    fn from(unwritten: Unwritten) -> Unput {
        Unput::Unwritten(unwritten)
    }
}

impl From<Refusal> for Unput {
    ghost from_gives = { λ refusal e. e ≡ Refused refusal };

    fn from(refusal: Refusal) -> Unput {
        Unput::Refused(refusal)
    }
}

// The text of a report at the front of the room, and how long it is. The rest of longer room is as it was; and so is all
// of it where no report was put there.
pub fn put_into(
    heap: Global,
    name: &[u8],
    circuit: Circuit<'_>,
    claims: &[Claim],
    room: &mut [u8],
) -> Result<usize, Unput>
    ensures { IsPut name.now circuit.entry claims.now room.old room.new result }
{
    let text = text_of(heap, name, circuit, claims)?;
    let needed = text.len();
    if room.len() < needed {
        return Err(Refusal::NoRoom(needed).into());
    }
    room[..needed].copy_from_slice(text.as_bytes());
    Ok(needed)
}
