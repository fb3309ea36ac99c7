// Which number stands at each place of a gate, of a register and of the times: three tables, no two with a row in common.
ghost use Rattle.std.specs.Prelude.{◌≡◌, ◌<◌};
ghost use Rattle.reason.specs.Reason.{gate_place, register_place, times_place};

use detail::{GateColumn, Input, RegisterColumn, TimesColumn};

// What the number at this place of a gate's seven is.
pub(crate) fn of_gate(place: usize) -> GateColumn
    requires { place < 7 }
    ensures { gate_place result ≡ place }
{
    match place {
        0 => GateColumn::Input(Input::First),
        1 => GateColumn::Input(Input::Second),
        2 => GateColumn::Table,
        3 => GateColumn::Least(Input::First),
        4 => GateColumn::Greatest(Input::First),
        5 => GateColumn::Least(Input::Second),
        _ => GateColumn::Greatest(Input::Second),
    }
}

// What the number at this place of a register's three is.
pub(crate) fn of_register(place: usize) -> RegisterColumn
    requires { place < 3 }
    ensures { register_place result ≡ place }
{
    match place {
        0 => RegisterColumn::Signal,
        1 => RegisterColumn::Early,
        _ => RegisterColumn::Late,
    }
}

// What the time at this place of the five is.
pub(crate) fn of_times(place: usize) -> TimesColumn
    requires { place < 5 }
    ensures { times_place result ≡ place }
{
    match place {
        0 => TimesColumn::Period,
        1 => TimesColumn::Earliest,
        2 => TimesColumn::Latest,
        3 => TimesColumn::Setup,
        _ => TimesColumn::Hold,
    }
}
