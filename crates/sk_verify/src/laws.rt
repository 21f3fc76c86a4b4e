//! The law of tables that are read.
ghost use Rattle.sk_verify.specs.Reading.{ReadTablesFit};

use sk_lattice::NumDom;

/// Over every domain, triples that fit a program, its definition and its names make a table that walks and verdicts can be
/// asked for.
pub fn read_tables_fit<D: NumDom>()
    ensures { ReadTablesFit D }
{}
