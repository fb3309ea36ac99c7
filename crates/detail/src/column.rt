// What each number of a gate, of a register and of the times is, in words.
// One of a gate's two inputs.
#[derive(Clone, Copy)]
pub enum Input {
    First,
    Second,
}

#[derive(Clone, Copy)]
pub enum GateColumn {
    Input(Input),
    Table,
    Least(Input),
    Greatest(Input),
}

#[derive(Clone, Copy)]
pub enum RegisterColumn {
    Signal,
    Early,
    Late,
}

#[derive(Clone, Copy)]
pub enum TimesColumn {
    Period,
    Earliest,
    Latest,
    Setup,
    Hold,
}

impl Input {
    pub(crate) fn words(self) -> &'static str {
        match self {
            Input::First => "first input",
            Input::Second => "second input",
        }
    }
}

impl GateColumn {
    pub(crate) fn words(self) -> &'static str {
        match self {
            GateColumn::Input(input) => input.words(),
            GateColumn::Table => "table",
            GateColumn::Least(Input::First) => "least delay of the first input",
            GateColumn::Least(Input::Second) => "least delay of the second input",
            GateColumn::Greatest(Input::First) => "greatest delay of the first input",
            GateColumn::Greatest(Input::Second) => "greatest delay of the second input",
        }
    }
}

impl RegisterColumn {
    pub(crate) fn words(self) -> &'static str {
        match self {
            RegisterColumn::Signal => "signal",
            RegisterColumn::Early => "early time",
            RegisterColumn::Late => "late time",
        }
    }
}

impl TimesColumn {
    pub(crate) fn words(self) -> &'static str {
        match self {
            TimesColumn::Period => "period",
            TimesColumn::Earliest => "earliest output time",
            TimesColumn::Latest => "latest output time",
            TimesColumn::Setup => "setup time",
            TimesColumn::Hold => "hold time",
        }
    }
}
