//! Coroutines (Lua 5.2 manual, 6.2), and built-ins that call a function.

/// What a coroutine is doing.
#[derive(Clone, Copy, PartialEq, Eq, Debug, Drop)]
pub enum CoStatus {
    Running,
    Suspended,
    /// It resumed another one that has not ended or yielded yet.
    Normal,
    Dead,
}

/// What a built-in does with the results of the function that it called.
#[derive(Clone, Copy, PartialEq, Eq, Debug, Drop)]
pub enum After {
    /// It gives the first three, as `pairs` does of `__pairs`.
    FirstThree,
    /// It gives the first, which has to be a text, as `tostring` does of `__tostring`.
    OneText,
}
