//! Triples and cover lines.

use sk_base::Seq;
use sk_def::HookId;
use sk_lattice::{AbsTuple, NumDom};

/// From inputs that `ins` covers, the hook at the point ends in outputs that `outs` covers, or in none.
#[derive(Drop)]
pub struct Triple<D: NumDom> {
    pub hook: HookId,
    pub point: u16,
    pub ins: AbsTuple<D>,
    pub outs: Option<AbsTuple<D>>,
}

/// A hook, a point and inputs that a table has to cover.
#[derive(Drop)]
pub struct Cover<D: NumDom> {
    pub hook: HookId,
    pub point: u16,
    pub ins: AbsTuple<D>,
}

/// A table: triples in order.
pub type Table<D> = Seq<Triple<D>>;

/// Cover lines in order.
pub type Covers<D> = Seq<Cover<D>>;
