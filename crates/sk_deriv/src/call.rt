//! Calls.
use sk_def::HookId;
use sk_value::Tuple;

/// What a hook bone asks for: a hook at a point, with inputs.
#[derive(Drop)]
pub struct Call {
    pub hook: HookId,
    pub point: u16,
    pub ins: Tuple,
}
