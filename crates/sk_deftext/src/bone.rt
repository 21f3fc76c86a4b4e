//! Rules: their headers, and bones with branches.

ghost use Rattle.std.specs.Prelude.{◌≡◌, ◌<◌, ◌≤◌, ℕ, List, [], ◌∷◌, ◌++◌, length, nat_lt, OnOk, IfOk};
ghost use Rattle.sk_base.specs.Answer.{Gives};
ghost use Rattle.sk_lex.specs.Symbols.{symbol, IsShort, word_of, is_left_brace, is_right_brace};
ghost use Rattle.sk_def.specs.Named.{place_of_con, place_of_hook};
ghost use Rattle.sk_deftext.specs.Bodies as spec;
ghost use Rattle.sk_deftext.specs.Met.{turn_of, met};
ghost use Rattle.sk_deftext.specs.Meets.{error_of, IsWithin};
ghost use Rattle.sk_deftext.specs.Words.{keyword_in, plain_word};
ghost use Rattle.sk_deftext.specs.declared.draft.Draft.{Draft};
ghost use Rattle.sk_deftext.specs.declared.expected.Expected.TheVariants as expected;
ghost use Rattle.sk_deftext.specs.declared.expected.Listed.TheVariants as listed;
ghost use Rattle.sk_deftext.specs.declared.expected.Body.TheVariants as body_of;

use crate::draft::{BoneHead, Draft, OpenBone};
use crate::expected::{Body, Expected, Listed};
use crate::fault::{DefError, Refusal, Which};
use crate::meet::Met;
use crate::word::{Keyword, keyword_in, keyword_of, plain_word};
use sk_base::{Ident, NamesFault, NoMemory, Seq, Stack};
use sk_def::{
    Bone, BoneList, Con, ConId, Filter, Hook, HookId, Rule, Target, Var, VarList, filter_named,
};
use sk_lex::Lexeme;
use std::alloc::Global;

/// What a word is at the start of a bone.
#[derive(Clone, Copy)]
pub enum Opening {
    Filter(Filter),
    Hook(HookId),
    Branches,
    Keyword,
    Unknown,
}

/// The first place of a constructor of this name.
pub(crate) fn place_of_con(cons: &[Con], word: &[u8]) -> Option<usize>
    ensures { result ≡ place_of_con cons.now word.now }
{
    cons.iter().position(|con| con.name.is(word))
}

/// The first place of a hook of this name.
pub(crate) fn place_of_hook(hooks: &[Hook], word: &[u8]) -> Option<usize>
    ensures { result ≡ place_of_hook hooks.now word.now }
{
    hooks.iter().position(|hook| hook.name.is(word))
}

fn hook_named(hooks: &[Hook], word: &[u8]) -> Option<HookId>
    requires { length hooks.now ≤ 8 }
    ensures { result ≡ spec.hook_named hooks.now word.now }
{
    let place = place_of_hook(hooks, word)?;
    Some(HookId(place as u8))
}

fn con_named(cons: &[Con], word: &[u8]) -> Option<ConId>
    requires { length cons.now ≤ 128 }
    ensures { result ≡ spec.con_named cons.now word.now }
{
    let place = place_of_con(cons, word)?;
    Some(ConId(place as u8))
}

/// The hook of a rule.
#[tactic(auto, unfolding(crate::specs::Bodies::rule_hook))]
pub(crate) fn rule_hook(draft: &mut Draft, lexeme: Lexeme) -> Met
    requires within { IsWithin draft.old }
    ensures gives { Gives (λ next. turn_of draft.new next.now) error_of result (spec.rule_hook draft.old (word_of (symbol lexeme.entry))) }
    ensures within { OnOk result (IsWithin draft.new) }
{
    let Some(word) = lexeme.word() else {
        return Err(Refusal::Bad(DefError::Unexpected));
    };
    let Some(hook) = hook_named(draft.def.hooks.as_slice(), word) else {
        return Err(Refusal::Bad(DefError::Unknown));
    };
    draft.hook = Some(hook);
    Ok(&[])
}

/// The constructor of a rule.
#[tactic(auto, unfolding(crate::specs::Bodies::rule_con))]
pub(crate) fn rule_con(draft: &mut Draft, lexeme: Lexeme) -> Met
    requires within { IsWithin draft.old }
    ensures gives { Gives (λ next. turn_of draft.new next.now) error_of result (spec.rule_con draft.old (word_of (symbol lexeme.entry))) }
    ensures within { OnOk result (IsWithin draft.new) }
{
    let Some(word) = lexeme.word() else {
        return Err(Refusal::Bad(DefError::Unexpected));
    };
    let Some(con) = con_named(draft.def.cons.as_slice(), word) else {
        return Err(Refusal::Bad(DefError::Unknown));
    };
    draft.con = Some(con);
    Ok(&[])
}

/// A comma or the end of a list is expected.
fn more(list: Listed) -> &'static [Expected]
    ensures { result.now ≡ expected.More list ∷ [] }
{
    match list {
        Listed::Arguments => &[Expected::More(Listed::Arguments)],
        Listed::Inputs => &[Expected::More(Listed::Inputs)],
        Listed::Outputs => &[Expected::More(Listed::Outputs)],
        Listed::Terms => &[Expected::More(Listed::Terms)],
        Listed::RuleInputs => &[Expected::More(Listed::RuleInputs)],
        Listed::RuleOutputs => &[Expected::More(Listed::RuleOutputs)],
        Listed::BoneArgs => &[Expected::More(Listed::BoneArgs)],
        Listed::BoneOuts => &[Expected::More(Listed::BoneOuts)],
        Listed::Exports => &[Expected::More(Listed::Exports)],
    }
}

/// A variable of a list.
#[tactic(auto, unfolding(crate::specs::Bodies::variable))]
pub(crate) fn variable(alloc: Global, draft: &mut Draft, list: Listed, lexeme: Lexeme) -> Met
    requires word { IsShort lexeme }
    requires within { IsWithin draft.old }
    ensures gives { Gives (λ next. turn_of draft.new next.now) error_of result (spec.variable draft.old list (plain_word (word_of (symbol lexeme.entry)))) }
    ensures within { OnOk result (IsWithin draft.new) }
{
    let Some(word) = plain_word(lexeme) else {
        return Err(Refusal::Bad(DefError::Unexpected));
    };
    if draft.listed.len() >= 8 {
        return Err(Refusal::Bad(DefError::TooMany(Which::Arguments)));
    }
    match draft.vars.add(&Ident::of(alloc, word)?) {
        Ok(place) => {
            draft.listed.push(Var(place))?;
            Ok(more(list))
        }
        Err(NamesFault::Full) => Err(Refusal::Bad(DefError::TooMany(Which::Variables))),
        Err(NamesFault::NoMemory) => Err(Refusal::NoMemory),
    }
}

/// What a word is at the start of a bone.
#[tactic(auto, unfolding(crate::specs::Bodies::opening_of))]
fn opening_of(hooks: &[Hook], word: &[u8]) -> Opening
    requires { length hooks.now ≤ 8 }
    ensures { result ≡ spec.opening_of hooks.now word.now }
{
    if let Some(filter) = filter_named(word) {
        return Opening::Filter(filter);
    }
    match keyword_of(word) {
        Some(Keyword::Either) => Opening::Branches,
        Some(_) => Opening::Keyword,
        None => match hook_named(hooks, word) {
            Some(hook) => Opening::Hook(hook),
            None => Opening::Unknown,
        },
    }
}

/// What is expected in a filter bone, after its name.
fn filter_form(body: Body) -> &'static [Expected]
    ensures { result.now ≡ expected.Open ∷ expected.First listed.BoneArgs ∷ expected.Arrow ∷ expected.Open ∷ expected.First listed.BoneOuts ∷ expected.Bones body ∷ [] }
{
    match body {
        Body::Rule => &[
            Expected::Open,
            Expected::First(Listed::BoneArgs),
            Expected::Arrow,
            Expected::Open,
            Expected::First(Listed::BoneOuts),
            Expected::Bones(Body::Rule),
        ],
        Body::Branch => &[
            Expected::Open,
            Expected::First(Listed::BoneArgs),
            Expected::Arrow,
            Expected::Open,
            Expected::First(Listed::BoneOuts),
            Expected::Bones(Body::Branch),
        ],
    }
}

/// What is expected in a hook bone, after its name.
fn hook_form(body: Body) -> &'static [Expected]
    ensures { result.now ≡ expected.Open ∷ expected.First listed.BoneArgs ∷ expected.BoneTarget ∷ expected.Arrow ∷ expected.Open ∷ expected.First listed.BoneOuts ∷ expected.Bones body ∷ [] }
{
    match body {
        Body::Rule => &[
            Expected::Open,
            Expected::First(Listed::BoneArgs),
            Expected::BoneTarget,
            Expected::Arrow,
            Expected::Open,
            Expected::First(Listed::BoneOuts),
            Expected::Bones(Body::Rule),
        ],
        Body::Branch => &[
            Expected::Open,
            Expected::First(Listed::BoneArgs),
            Expected::BoneTarget,
            Expected::Arrow,
            Expected::Open,
            Expected::First(Listed::BoneOuts),
            Expected::Bones(Body::Branch),
        ],
    }
}

/// What is expected in a branch bone, after `either`.
fn branches_form(body: Body) -> &'static [Expected]
    ensures { result.now ≡ expected.BranchOpen ∷ expected.Bones body_of.Branch ∷ expected.OrFirst ∷ expected.BranchOpen ∷ expected.Bones body_of.Branch ∷ expected.OrMore ∷ expected.Bones body ∷ [] }
{
    match body {
        Body::Rule => &[
            Expected::BranchOpen,
            Expected::Bones(Body::Branch),
            Expected::OrFirst,
            Expected::BranchOpen,
            Expected::Bones(Body::Branch),
            Expected::OrMore,
            Expected::Bones(Body::Rule),
        ],
        Body::Branch => &[
            Expected::BranchOpen,
            Expected::Bones(Body::Branch),
            Expected::OrFirst,
            Expected::BranchOpen,
            Expected::Bones(Body::Branch),
            Expected::OrMore,
            Expected::Bones(Body::Branch),
        ],
    }
}

/// A filter or hook bone begins; its parts come later.
fn begin(draft: &mut Draft, head: BoneHead, form: &'static [Expected], at: usize) -> Met
    requires within { IsWithin draft.old }
    requires room { length draft.old.marks < 64 }
    ensures gives { Gives (λ next. turn_of draft.new next.now) error_of result (spec.with_head draft.old at head form.now) }
    ensures within { OnOk result (IsWithin draft.new) }
{
    draft.marks.push(at)?;
    draft.opened = Some(head);
    draft.target = Target::Own;
    Ok(form)
}

/// A branch bone begins. Its branches are lists of their own.
fn begin_branches(alloc: Global, draft: &mut Draft, form: &'static [Expected], at: usize) -> Met
    requires within { IsWithin draft.old }
    requires room { length draft.old.marks < 64 }
    ensures gives { Gives (λ next. turn_of draft.new next.now) error_of result (spec.with_branches draft.old at form.now) }
    ensures within { OnOk result (IsWithin draft.new) }
{
    if draft.unclosed.len() >= 8 {
        return Err(Refusal::Bad(DefError::TooMany(Which::Nesting)));
    }
    draft.marks.push(at)?;
    draft.unclosed.push(OpenBone {
        before: draft.bones.take(alloc),
        counts: Seq::new(alloc),
        inside: Seq::new(alloc),
    })?;
    Ok(form)
}

/// The first word of a bone.
#[tactic(auto, unfolding(crate::specs::Bodies::bone))]
pub(crate) fn bone(alloc: Global, draft: &mut Draft, body: Body, lexeme: Lexeme, at: usize) -> Met
    requires within { IsWithin draft.old }
    ensures gives { Gives (λ next. turn_of draft.new next.now) error_of result (spec.bone draft.old body at (word_of (symbol lexeme.entry))) }
    ensures within { OnOk result (IsWithin draft.new) }
{
    let Some(word) = lexeme.word() else {
        return Err(Refusal::Bad(DefError::Unexpected));
    };
    let opening = opening_of(draft.def.hooks.as_slice(), word);
    if let Opening::Keyword = opening {
        return Err(Refusal::Bad(DefError::Unexpected));
    }
    if draft.marks.len() >= 64 {
        return Err(Refusal::Bad(DefError::TooMany(Which::Bones)));
    }
    match opening {
        Opening::Keyword => Err(Refusal::Bad(DefError::Unexpected)),
        Opening::Unknown => Err(Refusal::Bad(DefError::Unknown)),
        Opening::Filter(filter) => begin(draft, BoneHead::Filter(filter), filter_form(body), at),
        Opening::Hook(hook) => begin(draft, BoneHead::Hook(hook), hook_form(body), at),
        Opening::Branches => begin_branches(alloc, draft, branches_form(body), at),
    }
}

/// The term that a hook bone evaluates.
#[tactic(auto, unfolding(crate::specs::Bodies::target))]
pub(crate) fn target(alloc: Global, draft: &mut Draft, lexeme: Lexeme) -> Met
    requires word { IsShort lexeme }
    requires within { IsWithin draft.old }
    ensures gives { Gives (λ next. turn_of draft.new next.now) error_of result (spec.target draft.old (word_of (symbol lexeme.entry))) }
    ensures within { OnOk result (IsWithin draft.new) }
{
    let Some(word) = lexeme.word() else {
        return Err(Refusal::Bad(DefError::Unexpected));
    };
    match keyword_of(word) {
        Some(Keyword::Own) => Ok(&[]),
        Some(_) => Err(Refusal::Bad(DefError::Unexpected)),
        None => match draft.vars.add(&Ident::of(alloc, word)?) {
            Ok(place) => {
                draft.target = Target::Sub(Var(place));
                Ok(&[])
            }
            Err(NamesFault::Full) => Err(Refusal::Bad(DefError::TooMany(Which::Variables))),
            Err(NamesFault::NoMemory) => Err(Refusal::NoMemory),
        },
    }
}

/// The `{` of a branch.
pub(crate) fn begin_branch(draft: &mut Draft) -> Met
    requires within { IsWithin draft.old }
    ensures gives { Gives (λ next. turn_of draft.new next.now) error_of result (spec.branch_begun draft.old draft.old.unclosed) }
    ensures within { OnOk result (IsWithin draft.new) }
{
    let Some(one) = draft.unclosed.pop() else {
        return Err(Refusal::Bad(DefError::Unexpected));
    };
    if one.counts.len() >= 8 {
        return Err(Refusal::Bad(DefError::TooMany(Which::Branches)));
    }
    draft.unclosed.push(one)?;
    Ok(&[])
}

/// The `}` of a branch, whose bones go to those of the branches before it.
fn end_branch(alloc: Global, draft: &mut Draft) -> Met
    requires within { IsWithin draft.old }
    ensures gives { Gives (λ next. turn_of draft.new next.now) error_of result (spec.branch_ended draft.old draft.old.unclosed) }
    ensures within { OnOk result (IsWithin draft.new) }
{
    let Some(one) = draft.unclosed.pop() else {
        return Err(Refusal::Bad(DefError::Unexpected));
    };
    let mut counts = one.counts;
    let mut inside = one.inside;
    counts.push(draft.bones.len() as u8)?;
    inside.append(draft.bones.take(alloc))?;
    draft.unclosed.push(OpenBone {
        before: one.before,
        counts,
        inside,
    })?;
    Ok(&[])
}

/// The `}` after bones.
#[tactic(auto, unfolding(crate::specs::Bodies::closing_brace))]
pub(crate) fn end_bones(alloc: Global, draft: &mut Draft, body: Body) -> Met
    requires within { IsWithin draft.old }
    ensures gives { Gives (λ next. turn_of draft.new next.now) error_of result (spec.closing_brace draft.old body) }
    ensures within { OnOk result (IsWithin draft.new) }
{
    match body {
        Body::Rule => Ok(&[]),
        Body::Branch => end_branch(alloc, draft),
    }
}

/// The `or` after a first branch.
#[tactic(auto, unfolding(crate::specs::Bodies::or_first))]
pub(crate) fn or_first(lexeme: Lexeme) -> Met
    ensures { (draft : Draft) → Gives (λ next. turn_of draft next.now) error_of result (spec.or_first draft (keyword_in (word_of (symbol lexeme.entry)))) }
{
    match keyword_in(lexeme) {
        Some(Keyword::Or) => Ok(&[]),
        _ => Err(Refusal::Bad(DefError::Unexpected)),
    }
}

/// The `or` or `with` after a further branch.
#[tactic(auto, unfolding(crate::specs::Bodies::or_more))]
pub(crate) fn or_more(lexeme: Lexeme) -> Met
    ensures { (draft : Draft) → Gives (λ next. turn_of draft next.now) error_of result (spec.or_more draft (keyword_in (word_of (symbol lexeme.entry)))) }
{
    match keyword_in(lexeme) {
        Some(Keyword::Or) => Ok(&[
            Expected::BranchOpen,
            Expected::Bones(Body::Branch),
            Expected::OrMore,
        ]),
        Some(Keyword::With) => Ok(&[Expected::Open, Expected::First(Listed::Exports)]),
        _ => Err(Refusal::Bad(DefError::Unexpected)),
    }
}

/// The end of a filter or hook bone.
pub(crate) fn finish_bone(alloc: Global, draft: &mut Draft) -> Met
    requires within { IsWithin draft.old }
    ensures gives { Gives (λ next. turn_of draft.new next.now) error_of result (spec.finished_bone draft.old draft.old.opened) }
    ensures within { OnOk result (IsWithin draft.new) }
{
    let Some(head) = draft.opened.take() else {
        return Err(Refusal::Bad(DefError::Unexpected));
    };
    let args = draft.bone_args.take(alloc);
    let outs = draft.listed.take(alloc);
    draft.bones.push(bone_of(head, args, draft.target, outs))?;
    Ok(&[])
}

/// A filter or hook bone of its parts.
fn bone_of(head: BoneHead, args: VarList, target: Target, outs: VarList) -> Bone
    ensures { result ≡ spec.bone_of head args target outs }
{
    match head {
        BoneHead::Filter(filter) => Bone::Apply { filter, args, outs },
        BoneHead::Hook(hook) => Bone::Call {
            hook,
            args,
            target,
            outs,
        },
    }
}

/// The end of a branch bone, which goes before its branches.
pub(crate) fn finish_branches(alloc: Global, draft: &mut Draft) -> Met
    requires within { IsWithin draft.old }
    ensures gives { Gives (λ next. turn_of draft.new next.now) error_of result (spec.finished_branches draft.old draft.old.unclosed) }
    ensures within { OnOk result (IsWithin draft.new) }
{
    let Some(one) = draft.unclosed.pop() else {
        return Err(Refusal::Bad(DefError::Unexpected));
    };
    if one.counts.len() < 2 {
        return Err(Refusal::Bad(DefError::Unexpected));
    }
    let mut bones = one.before;
    bones.push(Bone::Either {
        branches: one.counts,
        exports: draft.listed.take(alloc),
    })?;
    bones.append(one.inside)?;
    draft.bones = bones;
    Ok(&[])
}

/// The places of a rule: its word `rule`, its bones and its last `->`.
fn rule_marks(
    alloc: Global,
    begun: usize,
    marks: Seq<usize>,
    closing: usize,
) -> Result<Seq<usize>, NoMemory>
    ensures { IfOk result (λ whole. whole ≡ begun ∷ (marks ++ closing ∷ [])) }
{
    let mut whole = Seq::new(alloc);
    whole.push(begun)?;
    whole.append(marks)?;
    whole.push(closing)?;
    Ok(whole)
}

/// The end of a rule.
pub(crate) fn finish_rule(alloc: Global, draft: &mut Draft) -> Met
    requires within { IsWithin draft.old }
    ensures gives { Gives (λ next. turn_of draft.new next.now) error_of result (spec.finished_rule draft.old draft.old.hook draft.old.con) }
    ensures within { OnOk result (IsWithin draft.new) }
{
    let Some(hook) = draft.hook else {
        return Err(Refusal::Bad(DefError::Unexpected));
    };
    let Some(con) = draft.con else {
        return Err(Refusal::Bad(DefError::Unexpected));
    };
    let rule = Rule {
        hook,
        con,
        vars: draft.vars.take()?,
        terms: draft.terms.take(alloc),
        inputs: draft.rule_inputs.take(alloc),
        bones: draft.bones.take(alloc),
        outputs: draft.listed.take(alloc),
    };
    draft.def.rules.push(rule)?;
    let marks = rule_marks(alloc, draft.begun, draft.marks.take(alloc), draft.closing)?;
    draft.rules.push(marks)?;
    draft.unclosed = Stack::new(alloc);
    draft.opened = None;
    draft.bone_args = Seq::new(alloc);
    draft.target = Target::Own;
    Ok(&[])
}
