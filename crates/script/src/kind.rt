// The kinds of statements.

#[derive(Clone, Copy)]
pub enum Kind {
    // In a cycle, when the clock comes to a register.
    Clock,
    // In a cycle, what a register takes where it may take anything.
    Take,
    // From a moment on, a gate's two delays.
    Delay,
    // From a moment on, what a register shows where it may show anything.
    Show,
}
