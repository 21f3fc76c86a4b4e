//! Why a walk ends before its last bone.

/// A method of the interpretation stopped, or there was no memory for the walk itself.
#[derive(Clone, Copy, Debug, PartialEq, Eq)]
pub enum WalkStop<S> {
    Stop(S),
    NoMemory,
}
