//! The canonical text of a definition.

ghost use Rattle.std.specs.Prelude.{◌≡◌, ◌≤◌, ◌<◌, ◌+◌, ◌^◌, ℕ, suc, List, [], ◌++◌, if◌then◌else◌, length, flat_map, OnOk, IfOk};
ghost use Rattle.std.specs.List.{join_by};
ghost use Rattle.sk_def.specs.Layout.{after_branches};
ghost use Rattle.sk_deftext.specs.Written.{HasText, Says};
ghost use Rattle.sk_deftext.specs.Canonical.{name_at, hook_word, con_word, flow_word, arg_word, var_word, target_word, list_text, sort_line, con_line, hook_line, filter_line, call_line, or_line, with_line, rule_line, indent, branches, bones_text, rule_text, definition_text};

use sk_base::{FlowSort, Ident, NoMemory};
use sk_def::{
    ArgSort, Bone, Con, ConId, Def, Filter, Hook, HookId, Rule, Target, Var, VarList, filter_word,
};
use std::alloc::Global;

/// The name at a place, nothing where there is none.
fn name_at(names: &[Ident], place: u8) -> &[u8]
    ensures { result.now ≡ name_at names.now place }
{
    match names.get(usize::from(place)) {
        Some(name) => name.as_bytes(),
        None => b"",
    }
}

/// The name of a hook.
fn hook_word(hooks: &[Hook], id: HookId) -> &[u8]
    ensures { result.now ≡ hook_word hooks.now id }
{
    match hooks.get(usize::from(id.0)) {
        Some(hook) => hook.name.as_bytes(),
        None => b"",
    }
}

/// The name of a constructor.
fn con_word(cons: &[Con], id: ConId) -> &[u8]
    ensures { result.now ≡ con_word cons.now id }
{
    match cons.get(usize::from(id.0)) {
        Some(con) => con.name.as_bytes(),
        None => b"",
    }
}

/// The word of a flow sort.
fn flow_word(sort: FlowSort) -> &'static [u8]
    ensures { result.now ≡ flow_word sort }
{
    match sort {
        FlowSort::Int => b"int",
        FlowSort::Bool => b"bool",
        FlowSort::Val => b"val",
        FlowSort::Store => b"store",
    }
}

/// The word of a term that a hook bone evaluates.
fn target_word(vars: &[Ident], target: Target) -> &[u8]
    ensures { result.now ≡ target_word vars.now target }
{
    match target {
        Target::Own => b"self",
        Target::Sub(var) => name_at(vars, var.0),
    }
}

/// An entry of a list in parentheses.
trait Entry {
    /// Its word, given the names that entries of this kind go by.
    ghost word: { List (List ℕ) → Self → List ℕ };

    /// Its word.
    fn word<'a>(&self, names: &'a [Ident]) -> &'a [u8]
        ensures { result.now ≡ word names.now self.now };
}

impl Entry for ArgSort {
    ghost word = { arg_word };

    fn word<'a>(&self, names: &'a [Ident]) -> &'a [u8] {
        match self {
            ArgSort::Number => b"number",
            ArgSort::Name => b"name",
            ArgSort::Term(sort) => name_at(names, sort.0),
        }
    }
}

impl Entry for FlowSort {
    ghost word = { λ _ sort. flow_word sort };

    fn word<'a>(&self, _names: &'a [Ident]) -> &'a [u8] {
        flow_word(*self)
    }
}

impl Entry for Var {
    ghost word = { var_word };

    fn word<'a>(&self, names: &'a [Ident]) -> &'a [u8] {
        name_at(names, self.0)
    }
}

/// Appends entries in parentheses.
fn put_list<E: Entry>(out: &mut Vec<u8>, names: &[Ident], entries: &[E]) -> Result<(), NoMemory>
    ensures { OnOk result (out.new.items ≡ out.old.items ++ list_text (E.word names.now) entries.now) }
{
    out.extend_from_slice(b"(")?;
    if let Some((first, others)) = entries.split_first() {
        out.extend_from_slice(first.word(names))?;
        for entry in others {
            out.extend_from_slice(b", ")?;
            out.extend_from_slice(entry.word(names))?;
        }
    }
    out.extend_from_slice(b")")?;
    Ok(())
}

/// Appends two spaces per level.
fn put_indent(out: &mut Vec<u8>, level: usize) -> Result<(), NoMemory>
    ensures { OnOk result (out.new.items ≡ out.old.items ++ indent level) }
{
    for _ in 0..level {
        out.extend_from_slice(b"  ")?;
    }
    Ok(())
}

/// Appends the line of a sort.
fn put_sort(out: &mut Vec<u8>, name: &Ident) -> Result<(), NoMemory>
    ensures { OnOk result (out.new.items ≡ out.old.items ++ sort_line name.now) }
{
    out.extend_from_slice(b"sort ")?;
    out.extend_from_slice(name.as_bytes())?;
    out.extend_from_slice(b"\n")?;
    Ok(())
}

/// Appends the line of a constructor.
fn put_con(out: &mut Vec<u8>, sorts: &[Ident], con: &Con) -> Result<(), NoMemory>
    ensures { OnOk result (out.new.items ≡ out.old.items ++ con_line sorts.now con.now) }
{
    out.extend_from_slice(b"con ")?;
    out.extend_from_slice(con.name.as_bytes())?;
    out.extend_from_slice(b" : ")?;
    out.extend_from_slice(name_at(sorts, con.sort.0))?;
    put_list(out, sorts, con.args.as_slice())?;
    out.extend_from_slice(b"\n")?;
    Ok(())
}

/// Appends the line of a hook.
fn put_hook(out: &mut Vec<u8>, sorts: &[Ident], hook: &Hook) -> Result<(), NoMemory>
    ensures { OnOk result (out.new.items ≡ out.old.items ++ hook_line sorts.now hook.now) }
{
    out.extend_from_slice(b"hook ")?;
    out.extend_from_slice(hook.name.as_bytes())?;
    put_list(out, sorts, hook.inputs.as_slice())?;
    out.extend_from_slice(b" ")?;
    out.extend_from_slice(name_at(sorts, hook.sort.0))?;
    out.extend_from_slice(b" -> ")?;
    put_list(out, sorts, hook.outputs.as_slice())?;
    out.extend_from_slice(b"\n")?;
    Ok(())
}

/// Appends a filter bone, after its indent.
fn put_filter(
    out: &mut Vec<u8>,
    vars: &[Ident],
    filter: Filter,
    args: &VarList,
    outs: &VarList,
) -> Result<(), NoMemory>
    ensures { OnOk result (out.new.items ≡ out.old.items ++ filter_line vars.now filter args.now outs.now) }
{
    out.extend_from_slice(filter_word(filter))?;
    put_list(out, vars, args.as_slice())?;
    out.extend_from_slice(b" -> ")?;
    put_list(out, vars, outs.as_slice())?;
    out.extend_from_slice(b"\n")?;
    Ok(())
}

/// Appends a hook bone, after its indent.
fn put_call(
    out: &mut Vec<u8>,
    vars: &[Ident],
    hook: &[u8],
    args: &VarList,
    target: Target,
    outs: &VarList,
) -> Result<(), NoMemory>
    ensures { OnOk result (out.new.items ≡ out.old.items ++ call_line vars.now hook.now args.now target outs.now) }
{
    out.extend_from_slice(hook)?;
    put_list(out, vars, args.as_slice())?;
    out.extend_from_slice(b" ")?;
    out.extend_from_slice(target_word(vars, target))?;
    out.extend_from_slice(b" -> ")?;
    put_list(out, vars, outs.as_slice())?;
    out.extend_from_slice(b"\n")?;
    Ok(())
}

/// Appends the end of a branch bone, with its indent.
fn put_exports(
    out: &mut Vec<u8>,
    vars: &[Ident],
    level: usize,
    exports: &VarList,
) -> Result<(), NoMemory>
    ensures { OnOk result (out.new.items ≡ out.old.items ++ with_line vars.now level exports.now) }
{
    put_indent(out, level)?;
    out.extend_from_slice(b"} with ")?;
    put_list(out, vars, exports.as_slice())?;
    out.extend_from_slice(b"\n")?;
    Ok(())
}

/// Appends what stands before a branch, which is nothing before the first.
fn put_between(out: &mut Vec<u8>, level: usize, is_first: bool) -> Result<(), NoMemory>
    ensures { OnOk result (out.new.items ≡ out.old.items ++ (if is_first then [] else or_line level)) }
{
    if !is_first {
        put_indent(out, level)?;
        out.extend_from_slice(b"} or {\n")?;
    }
    Ok(())
}

/// Appends bones, each on its own line.
#[cycle(bones)]
fn put_bones(
    out: &mut Vec<u8>,
    hooks: &[Hook],
    vars: &[Ident],
    level: usize,
    bones: &[Bone],
) -> Result<(), NoMemory>
    requires { level + length bones.now < 2 ^ 64 }
    ensures { (size : ℕ) → length bones.now ≤ size → OnOk result (out.new.items ≡ out.old.items ++ bones_text hooks.now vars.now size level bones.now) }
{
    let Some((bone, rest)) = bones.split_first() else {
        return Ok(());
    };
    put_indent(out, level)?;
    match bone {
        Bone::Apply { filter, args, outs } => {
            put_filter(out, vars, *filter, args, outs)?;
            put_bones(out, hooks, vars, level, rest)
        }
        Bone::Call {
            hook,
            args,
            target,
            outs,
        } => {
            put_call(out, vars, hook_word(hooks, *hook), args, *target, outs)?;
            put_bones(out, hooks, vars, level, rest)
        }
        Bone::Either {
            branches: counts,
            exports,
        } => {
            out.extend_from_slice(b"either {\n")?;
            let later = put_branches(out, hooks, vars, level, counts.as_slice(), rest)?;
            put_exports(out, vars, level, exports)?;
            put_bones(out, hooks, vars, level, later)
        }
    }
}

/// Appends the branches of these sizes and what stands between them, and answers the bones after them.
#[cycle(bones)]
fn put_branches<'a>(
    out: &mut Vec<u8>,
    hooks: &[Hook],
    vars: &[Ident],
    level: usize,
    counts: &[u8],
    bones: &'a [Bone],
) -> Result<&'a [Bone], NoMemory>
    requires { level + 1 + length bones.now < 2 ^ 64 }
    ensures text { (size : ℕ) → length bones.now ≤ size → OnOk result (out.new.items ≡ out.old.items ++ join_by (bones_text hooks.now vars.now size (suc level)) (or_line level) (branches counts.now bones.now)) }
    ensures later { IfOk result (λ later. later.now ≡ after_branches counts.now bones.now) }
{
    let mut left = bones;
    let mut is_first = true;
    for count in counts {
        put_between(out, level, is_first)?;
        let (branch, later) = left.split_at(usize::from(*count).min(left.len()));
        put_bones(out, hooks, vars, level + 1, branch)?;
        left = later;
        is_first = false;
    }
    Ok(left)
}

/// Appends the bones of a rule, one level in.
fn put_body(out: &mut Vec<u8>, hooks: &[Hook], rule: &Rule) -> Result<(), NoMemory>
    ensures { OnOk result (out.new.items ≡ out.old.items ++ bones_text hooks.now rule.now.vars (length rule.now.bones) 1 rule.now.bones) }
{
    put_bones(out, hooks, rule.vars.as_slice(), 1, rule.bones.as_slice())
}

/// Appends the first line of a rule.
fn put_head(out: &mut Vec<u8>, def: &Def, rule: &Rule) -> Result<(), NoMemory>
    ensures { OnOk result (out.new.items ≡ out.old.items ++ rule_line def.now rule.now) }
{
    out.extend_from_slice(b"rule ")?;
    out.extend_from_slice(hook_word(def.hooks.as_slice(), rule.hook))?;
    out.extend_from_slice(b" ")?;
    out.extend_from_slice(con_word(def.cons.as_slice(), rule.con))?;
    put_list(out, rule.vars.as_slice(), rule.terms.as_slice())?;
    out.extend_from_slice(b" ")?;
    put_list(out, rule.vars.as_slice(), rule.inputs.as_slice())?;
    out.extend_from_slice(b" {\n")?;
    Ok(())
}

/// Appends a rule.
fn put_rule(out: &mut Vec<u8>, def: &Def, rule: &Rule) -> Result<(), NoMemory>
    ensures { OnOk result (out.new.items ≡ out.old.items ++ rule_text def.now rule.now) }
{
    put_head(out, def, rule)?;
    put_body(out, def.hooks.as_slice(), rule)?;
    out.extend_from_slice(b"} -> ")?;
    put_list(out, rule.vars.as_slice(), rule.outputs.as_slice())?;
    out.extend_from_slice(b"\n")?;
    Ok(())
}

/// Appends the lines of all sorts.
fn put_sorts(out: &mut Vec<u8>, sorts: &[Ident]) -> Result<(), NoMemory>
    ensures { OnOk result (out.new.items ≡ out.old.items ++ flat_map sort_line sorts.now) }
{
    for name in sorts {
        put_sort(out, name)?;
    }
    Ok(())
}

/// Appends the lines of all constructors.
fn put_cons(out: &mut Vec<u8>, sorts: &[Ident], cons: &[Con]) -> Result<(), NoMemory>
    ensures { OnOk result (out.new.items ≡ out.old.items ++ flat_map (con_line sorts.now) cons.now) }
{
    for con in cons {
        put_con(out, sorts, con)?;
    }
    Ok(())
}

/// Appends the lines of all hooks.
fn put_hooks(out: &mut Vec<u8>, sorts: &[Ident], hooks: &[Hook]) -> Result<(), NoMemory>
    ensures { OnOk result (out.new.items ≡ out.old.items ++ flat_map (hook_line sorts.now) hooks.now) }
{
    for hook in hooks {
        put_hook(out, sorts, hook)?;
    }
    Ok(())
}

/// Appends all rules.
fn put_rules(out: &mut Vec<u8>, def: &Def) -> Result<(), NoMemory>
    ensures { OnOk result (out.new.items ≡ out.old.items ++ flat_map (rule_text def.now) def.now.rules) }
{
    for rule in def.rules.as_slice() {
        put_rule(out, def, rule)?;
    }
    Ok(())
}

/// The canonical text of a definition: its sorts, constructors, hooks and rules in this order, each on a line, and each
/// bone on its own line, two spaces further in for each level.
pub fn print_def(alloc: Global, def: &Def) -> Result<Vec<u8>, NoMemory>
    ensures text { IfOk result (λ text. text.items ≡ definition_text def.now) }

    // Where a text can say the definition, reading this one gives the definition again.
    ensures says { HasText def.now → IfOk result (λ text. Says text.items def.now) }

    // And so it is for each definition that some text says, as for each that was read.
    ensures again { (from : List ℕ) → Says from def.now → IfOk result (λ text. Says text.items def.now) }
{
    let mut out = Vec::new(alloc);
    let sorts = def.sorts.as_slice();
    out.extend_from_slice(b"skel 1\n")?;
    put_sorts(&mut out, sorts)?;
    put_cons(&mut out, sorts, def.cons.as_slice())?;
    put_hooks(&mut out, sorts, def.hooks.as_slice())?;
    put_rules(&mut out, def)?;
    Ok(out)
}
