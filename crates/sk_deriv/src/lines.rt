//! Derivations as lines of text.
ghost use Rattle.std.specs.Prelude.{◌≡◌, ◌++◌, ◌+◌, ◌<◌, Some, length, IfOk, OnOk, OnErr};
ghost use Rattle.sk_base.specs.Sink.{AppendsPrefix};
ghost use Rattle.sk_deriv.specs.Forest.{tree_at};
ghost use Rattle.sk_deriv.specs.Lines.{call_line, pick_line, derivation_lines};

use crate::{Forest, Node, Step};
use sk_base::{Names, NoMemory};
use sk_def::Def;
use sk_value::{put_bytes, put_count};
use std::alloc::Global;

impl Forest {
    /// Appends the derivation of a node that is there, in preorder: a line for each node, with its depth, its hook and
    /// point, its inputs and its outputs, and one for each pick. After a refusal a prefix of this was appended.
    pub fn put_derivation(
        &self,
        def: &Def,
        names: &Names,
        node: usize,
        out: &mut Vec<u8>,
    ) -> Result<(), NoMemory>
        requires { node < length self.now }
        ensures ok { OnOk result (out.new.items ≡ out.old.items ++ derivation_lines def.now names.now 0 (tree_at self.now node)) }
        ensures err { OnErr result (AppendsPrefix (Some out.old.items) (Some out.new.items) (derivation_lines def.now names.now 0 (tree_at self.now node))) }
    {
        self.put_below(def, names, node, 0, out)
    }

    /// Appends the derivation of a node at this depth.
    fn put_below(
        &self,
        def: &Def,
        names: &Names,
        node: usize,
        depth: usize,
        out: &mut Vec<u8>,
    ) -> Result<(), NoMemory>
        requires { depth + node < length self.now }
        ensures ok { OnOk result (out.new.items ≡ out.old.items ++ derivation_lines def.now names.now depth (tree_at self.now node)) }
        ensures err { OnErr result (AppendsPrefix (Some out.old.items) (Some out.new.items) (derivation_lines def.now names.now depth (tree_at self.now node))) }
    {
        let alloc = *out.allocator();
        let _count = self.len();
        let root = self.get(node);
        put_bytes(out, call_line(alloc, def, names, depth, root)?.as_slice())?;
        for step in root.steps.as_slice() {
            match step {
                Step::Pick(k) => put_bytes(out, pick_line(alloc, depth + 1, *k)?.as_slice())?,
                Step::Sub(child) => self.put_below(def, names, *child, depth + 1, out)?,
            }
        }
        Ok(())
    }
}

/// The line of a node at this depth.
fn call_line(
    alloc: Global,
    def: &Def,
    names: &Names,
    depth: usize,
    node: &Node,
) -> Result<Vec<u8>, NoMemory>
    ensures { IfOk result (λ line. line.items ≡ call_line def.now names.now depth node.now.hook node.now.point node.now.ins node.now.outs) }
{
    let mut line = Vec::new(alloc);
    put_count(&mut line, depth)?;
    put_bytes(&mut line, b" ")?;
    put_bytes(&mut line, def.hook_name(node.hook))?;
    put_bytes(&mut line, b" ")?;
    put_count(&mut line, usize::from(node.point))?;
    put_bytes(&mut line, b" ")?;
    node.ins.put_text(names, &mut line)?;
    put_bytes(&mut line, b" -> ")?;
    node.outs.put_text(names, &mut line)?;
    put_bytes(&mut line, b"\n")?;
    Ok(line)
}

/// The line of a pick at this depth.
fn pick_line(alloc: Global, depth: usize, pick: u32) -> Result<Vec<u8>, NoMemory>
    ensures { IfOk result (λ line. line.items ≡ pick_line depth pick) }
{
    let mut line = Vec::new(alloc);
    put_count(&mut line, depth)?;
    put_bytes(&mut line, b" pick ")?;
    put_count(&mut line, pick as usize)?;
    put_bytes(&mut line, b"\n")?;
    Ok(line)
}
