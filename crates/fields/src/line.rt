// The lines that tell delays and the like, by their first words.
ghost use Rattle.std.specs.Prelude.{◌≡◌, find};
ghost use Rattle.std.specs.Str.{bytes_eq};
ghost use Rattle.fields.specs.Lines.{word_of, line_of};

// What a line tells.
#[derive(Clone, Copy, PartialEq)]
pub enum Line {
    // How many cycles are to be run.
    Cycles,
    // The registers' bits at the start.
    Start,
    // The number from which is chosen what is not told.
    Random,
    // In a cycle, when the clock comes to a register.
    Clock,
    // From a moment on, a gate's two delays.
    Delay,
    // From a moment on, what a register shows where it may show anything.
    Show,
    // In a cycle, what a register takes where it may take anything.
    Take,
}

// All of them.
const ALL: [Line; 7] = [
    Line::Cycles,
    Line::Start,
    Line::Random,
    Line::Clock,
    Line::Delay,
    Line::Show,
    Line::Take,
];

// The first of some lines that begins with a word.
fn first(word: &[u8], lines: &[Line]) -> Option<Line>
    ensures { result ≡ find (λ l. bytes_eq word.now (word_of l)) lines.now }
{
    lines
        .iter()
        .find(|line| lines::same(word, line.word().as_bytes()))
        .copied()
}

impl Line {
    // What a line tells that begins with this word.
    #[tactic(auto, unfolding(crate::specs::Lines::line_of))]
    pub fn of(word: &[u8]) -> Option<Line>
        ensures { result ≡ line_of word.now }
    {
        first(word, &ALL)
    }

    // Its first word.
    pub fn word(self) -> &'static str
        ensures { result.now ≡ word_of self }
    {
        match self {
            Line::Cycles => "cycles",
            Line::Start => "start",
            Line::Random => "random",
            Line::Clock => "clock",
            Line::Delay => "delay",
            Line::Show => "show",
            Line::Take => "take",
        }
    }

    // What its first word has after it, as a fault says it.
    pub(crate) fn after(self) -> &'static str {
        match self {
            Line::Cycles => "expected 1 number after `cycles`: how many",
            Line::Start => "expected a bit, 0 or 1, for each of the circuit's registers",
            Line::Random => "expected 1 number after `random`",
            Line::Clock => "expected 3 numbers after `clock`: cycle, register and time",
            Line::Delay => "expected 4 numbers after `delay`: moment, signal and two delays",
            Line::Show => "expected 3 numbers after `show`: moment, register and bit",
            Line::Take => "expected 3 numbers after `take`: cycle, register and bit",
        }
    }

    // What a line of its kind should have had that is out of order, up to its word.
    pub(crate) fn no_earlier(self) -> &'static str {
        match self {
            Line::Clock | Line::Take => "expected a cycle no earlier than that of the line `",
            _ => "expected a moment no earlier than that of the line `",
        }
    }
}
