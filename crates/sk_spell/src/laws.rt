//! The laws of reading: a reader reads exactly what is spelled so.
ghost use Rattle.sk_spell.specs.AbsTupleSpelling.{AbsTuplesAreReadExactly};
ghost use Rattle.sk_spell.specs.DefinitionSpelling.{DefinitionsAreReadExactly};
ghost use Rattle.sk_spell.specs.JobSpelling.{JobsAreReadExactly, OnlyJobsAreRead};
ghost use Rattle.sk_spell.specs.TableInFull.{TablesAreSpelledInFull};
ghost use Rattle.sk_spell.specs.TableSpelling.{TablesAreReadExactly};
ghost use Rattle.sk_spell.specs.TextSpelling.{TableTextsAreReadExactly, JobTextsAreReadExactly};
ghost use Rattle.sk_spell.specs.TupleSpelling.{TuplesAreReadExactly};

use sk_lattice::NumDom;

/// A text says a definition exactly where the definition has a text and the text's tokens are its own: `skel 1`, and items
/// in any order that each cite only what is declared before them.
pub fn definitions_are_read_exactly()
    ensures { DefinitionsAreReadExactly }
{}

/// Reading a tuple gives its values, the names with its own, and the place after it, exactly where the symbols from that
/// place on begin with its spelling: given that the names that stood are different words.
pub fn tuples_are_read_exactly()
    ensures { TuplesAreReadExactly }
{}

/// Over every domain, reading an abstract tuple gives this tuple, these names and the place after it, exactly where the
/// symbols from that place on begin with its spelling: given that the names are different words.
pub fn abs_tuples_are_read_exactly<D: NumDom>()
    ensures { AbsTuplesAreReadExactly D.domain D.texts }
{}

/// Over every domain, reading a table gives these triples exactly where the symbols spell them: `table 1`, the domain's
/// word, and triple after triple, each its call, its inputs, `->` and its outputs, at most 32,768, whatever the
/// definition, the program and the names.
pub fn tables_are_read_exactly<D: NumDom>()
    ensures { TablesAreReadExactly D.domain D.texts }
{}

/// Over every domain, reading a table gives these triples exactly where the symbols spell them, their tuples value by
/// value: given that the names are different words.
pub fn tables_are_spelled_in_full<D: NumDom>()
    ensures { TablesAreSpelledInFull D.domain D.texts }
{}

/// Reading a job gives its program, names and calls exactly where the symbols are those of `job 1 program`, the program's
/// term, at most one start line, and cover lines, one part after the other: given that each constructor is found by its
/// own name.
pub fn jobs_are_read_exactly()
    ensures { JobsAreReadExactly }
{}

/// What is read as a job was spelled so, whatever the definition.
pub fn only_jobs_are_read()
    ensures { OnlyJobsAreRead }
{}

/// Over every domain, a text is read as a table exactly where its tokens spell the table, its tuples value by value: given
/// that the names are different words.
pub fn table_texts_are_read_exactly<D: NumDom>()
    ensures { TableTextsAreReadExactly D.domain D.texts }
{}

/// A text is read as a job exactly where its tokens are the job's: given that each constructor is found by its own name.
pub fn job_texts_are_read_exactly()
    ensures { JobTextsAreReadExactly }
{}
