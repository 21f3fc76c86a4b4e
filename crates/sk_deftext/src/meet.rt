//! One step of reading: what is expected meets the next token.

ghost use Rattle.std.specs.Prelude.{◌≡◌, ◌<◌, ◌≤◌, ◌||◌, ℕ, List, [], ◌∷◌, None, length, IfOk, IfSome, OnErr, OnOk};
ghost use Rattle.sk_base.specs.Answer.{Gives};
ghost use Rattle.sk_base.specs.Names.{place_of_name};
ghost use Rattle.sk_lex.specs.Symbols.{symbol, IsShort, word_of, number_of};
ghost use Rattle.sk_deftext.specs.Reading as spec;
ghost use Rattle.sk_deftext.specs.Met.{turn_of, met, asked};
ghost use Rattle.sk_def.specs.Named.{place_of_con, place_of_hook};
ghost use Rattle.sk_deftext.specs.Meets.{error_of, IsWithin};
ghost use Rattle.sk_deftext.specs.Words.{keyword_in, plain_word};
ghost use Rattle.sk_deftext.specs.declared.draft.Draft.{Draft};
ghost use Rattle.sk_deftext.specs.declared.expected.Expected.TheVariants as expected;
ghost use Rattle.sk_deftext.specs.declared.expected.Listed.TheVariants as listed;

use crate::bone::{
    begin_branch, bone, end_bones, finish_bone, finish_branches, finish_rule, or_first, or_more,
    place_of_con, place_of_hook, rule_con, rule_hook, target, variable,
};
use crate::draft::Draft;
use crate::expected::{Body, Expected, Listed};
use crate::fault::{DefError, Refusal, Which};
use crate::word::{Keyword, flow_sort_of, is_reserved, keyword_in, plain_word};
use sk_base::Ident;
use sk_def::{ArgSort, Con, Hook, SortId, filter_named};
use sk_lex::Lexeme;
use std::alloc::Global;

/// What is expected after a token.
pub(crate) type Met = Result<&'static [Expected], Refusal>;

/// A token that has to be of one form.
fn asked(fits: bool) -> Met
    ensures { (draft : Draft) → Gives (λ next. turn_of draft next.now) error_of result (asked draft fits) }
{
    if fits {
        Ok(&[])
    } else {
        Err(Refusal::Bad(DefError::Unexpected))
    }
}

/// The word `skel`.
#[tactic(auto, unfolding(crate::specs::Reading::skel))]
fn skel(lexeme: Lexeme) -> Met
    ensures { (draft : Draft) → Gives (λ next. turn_of draft next.now) error_of result (spec.skel draft (word_of (symbol lexeme.entry))) }
{
    let Some(word) = lexeme.word() else {
        return Err(Refusal::Bad(DefError::Unexpected));
    };
    asked(word == b"skel".as_slice())
}

/// The number 1.
#[tactic(auto, unfolding(crate::specs::Reading::version))]
fn version(lexeme: Lexeme) -> Met
    ensures { (draft : Draft) → Gives (λ next. turn_of draft next.now) error_of result (spec.version draft (number_of (symbol lexeme.entry))) }
{
    let Some(value) = lexeme.number() else {
        return Err(Refusal::Bad(DefError::Unexpected));
    };
    asked(value == 1)
}

/// The first word of an item.
#[tactic(auto, unfolding(crate::specs::Reading::item))]
fn item(draft: &mut Draft, lexeme: Lexeme, at: usize) -> Met
    requires within { IsWithin draft.old }
    ensures gives { Gives (λ next. turn_of draft.new next.now) error_of result (spec.item draft.old at (keyword_in (word_of (symbol lexeme.entry)))) }
    ensures within { OnOk result (IsWithin draft.new) }
{
    let Some(keyword) = keyword_in(lexeme) else {
        return Err(Refusal::Bad(DefError::Unexpected));
    };
    match keyword {
        Keyword::Sort => Ok(&[Expected::SortName, Expected::Item]),
        Keyword::Con => Ok(con_form()),
        Keyword::Hook => {
            draft.begun = at;
            Ok(hook_form())
        }
        Keyword::Rule => {
            draft.begun = at;
            Ok(rule_form())
        }
        _ => Err(Refusal::Bad(DefError::Unexpected)),
    }
}

/// What is expected after `con`.
fn con_form() -> &'static [Expected]
    ensures { result.now ≡ expected.ConName ∷ expected.Colon ∷ expected.SortUsed ∷ expected.Open ∷ expected.First listed.Arguments ∷ expected.Item ∷ [] }
{
    &[
        Expected::ConName,
        Expected::Colon,
        Expected::SortUsed,
        Expected::Open,
        Expected::First(Listed::Arguments),
        Expected::Item,
    ]
}

/// What is expected after `hook`.
fn hook_form() -> &'static [Expected]
    ensures { result.now ≡ expected.HookName ∷ expected.Open ∷ expected.First listed.Inputs ∷ expected.SortUsed ∷ expected.Arrow ∷ expected.Open ∷ expected.First listed.Outputs ∷ expected.Item ∷ [] }
{
    &[
        Expected::HookName,
        Expected::Open,
        Expected::First(Listed::Inputs),
        Expected::SortUsed,
        Expected::Arrow,
        Expected::Open,
        Expected::First(Listed::Outputs),
        Expected::Item,
    ]
}

/// What is expected after `rule`.
fn rule_form() -> &'static [Expected]
    ensures { result.now ≡ spec.rule_form }
{
    &[
        Expected::RuleHook,
        Expected::RuleCon,
        Expected::Open,
        Expected::First(Listed::Terms),
        Expected::Open,
        Expected::First(Listed::RuleInputs),
        Expected::LeftBrace,
        Expected::Bones(Body::Rule),
        Expected::Closing,
        Expected::Open,
        Expected::First(Listed::RuleOutputs),
        Expected::Item,
    ]
}

/// The first place of a word among names.
fn place_of(names: &[Ident], word: &[u8]) -> Option<usize>
    ensures { result ≡ place_of_name names.now word.now }
{
    names.iter().position(|name| name.is(word))
}

/// The name of a sort.
#[tactic(auto, unfolding(crate::specs::Reading::sort_name))]
fn sort_name(alloc: Global, draft: &mut Draft, lexeme: Lexeme) -> Met
    requires word { IsShort lexeme }
    requires within { IsWithin draft.old }
    ensures gives { Gives (λ next. turn_of draft.new next.now) error_of result (spec.sort_name draft.old (plain_word (word_of (symbol lexeme.entry)))) }
    ensures within { OnOk result (IsWithin draft.new) }
{
    let Some(word) = plain_word(lexeme) else {
        return Err(Refusal::Bad(DefError::Unexpected));
    };
    let sorts = &mut draft.def.sorts;
    if sorts.len() >= 16 {
        return Err(Refusal::Bad(DefError::TooMany(Which::Sorts)));
    }
    if is_reserved(word) || place_of(sorts.as_slice(), word).is_some() {
        return Err(Refusal::Bad(DefError::Duplicate));
    }
    sorts.push(Ident::of(alloc, word)?)?;
    Ok(&[])
}

/// The name of a constructor.
#[tactic(auto, unfolding(crate::specs::Reading::con_name))]
fn con_name(alloc: Global, draft: &mut Draft, lexeme: Lexeme) -> Met
    requires word { IsShort lexeme }
    requires within { IsWithin draft.old }
    ensures gives { Gives (λ next. turn_of draft.new next.now) error_of result (spec.con_name draft.old (plain_word (word_of (symbol lexeme.entry)))) }
    ensures within { OnOk result (IsWithin draft.new) }
{
    let Some(word) = plain_word(lexeme) else {
        return Err(Refusal::Bad(DefError::Unexpected));
    };
    if draft.def.cons.len() >= 128 {
        return Err(Refusal::Bad(DefError::TooMany(Which::Constructors)));
    }
    if place_of_con(draft.def.cons.as_slice(), word).is_some() {
        return Err(Refusal::Bad(DefError::Duplicate));
    }
    draft.con_name = Some(Ident::of(alloc, word)?);
    Ok(&[])
}

/// The name of a hook.
#[tactic(auto, unfolding(crate::specs::Reading::hook_name))]
fn hook_name(alloc: Global, draft: &mut Draft, lexeme: Lexeme) -> Met
    requires word { IsShort lexeme }
    requires within { IsWithin draft.old }
    ensures gives { Gives (λ next. turn_of draft.new next.now) error_of result (spec.hook_name draft.old (plain_word (word_of (symbol lexeme.entry)))) }
    ensures within { OnOk result (IsWithin draft.new) }
{
    let Some(word) = plain_word(lexeme) else {
        return Err(Refusal::Bad(DefError::Unexpected));
    };
    if draft.def.hooks.len() >= 8 {
        return Err(Refusal::Bad(DefError::TooMany(Which::Hooks)));
    }
    if filter_named(word).is_some() || place_of_hook(draft.def.hooks.as_slice(), word).is_some() {
        return Err(Refusal::Bad(DefError::Duplicate));
    }
    draft.hook_name = Some(Ident::of(alloc, word)?);
    Ok(&[])
}

/// The sort of a name.
fn sort_named(sorts: &[Ident], word: &[u8]) -> Option<SortId>
    requires { length sorts.now ≤ 16 }
    ensures { result ≡ spec.sort_named sorts.now word.now }
{
    let place = place_of(sorts, word)?;
    Some(SortId(place as u8))
}

/// The sort of a constructor or a hook.
#[tactic(auto, unfolding(crate::specs::Reading::sort_used))]
fn sort_used(draft: &mut Draft, lexeme: Lexeme) -> Met
    requires within { IsWithin draft.old }
    ensures gives { Gives (λ next. turn_of draft.new next.now) error_of result (spec.sort_used draft.old (word_of (symbol lexeme.entry))) }
    ensures within { OnOk result (IsWithin draft.new) }
{
    let Some(word) = lexeme.word() else {
        return Err(Refusal::Bad(DefError::Unexpected));
    };
    let Some(sort) = sort_named(draft.def.sorts.as_slice(), word) else {
        return Err(Refusal::Bad(DefError::Unknown));
    };
    draft.sort = Some(sort);
    Ok(&[])
}

/// The sort of an argument.
fn arg_sort_named(sorts: &[Ident], word: &[u8]) -> Option<ArgSort>
    requires { length sorts.now ≤ 16 }
    ensures { result ≡ spec.arg_sort_named sorts.now word.now }
{
    if word == b"number".as_slice() {
        Some(ArgSort::Number)
    } else if word == b"name".as_slice() {
        Some(ArgSort::Name)
    } else {
        Some(ArgSort::Term(sort_named(sorts, word)?))
    }
}

/// An argument of a constructor.
#[tactic(auto, unfolding(crate::specs::Reading::argument))]
fn argument(draft: &mut Draft, lexeme: Lexeme) -> Met
    requires within { IsWithin draft.old }
    ensures gives { Gives (λ next. turn_of draft.new next.now) error_of result (spec.argument draft.old (word_of (symbol lexeme.entry))) }
    ensures within { OnOk result (IsWithin draft.new) }
{
    let Some(word) = lexeme.word() else {
        return Err(Refusal::Bad(DefError::Unexpected));
    };
    if draft.args.len() >= 8 {
        return Err(Refusal::Bad(DefError::TooMany(Which::Arguments)));
    }
    let Some(sort) = arg_sort_named(draft.def.sorts.as_slice(), word) else {
        return Err(Refusal::Bad(DefError::Unknown));
    };
    draft.args.push(sort)?;
    Ok(&[Expected::More(Listed::Arguments)])
}

/// A flow input of a hook.
#[tactic(auto, unfolding(crate::specs::Reading::input))]
fn input(draft: &mut Draft, lexeme: Lexeme) -> Met
    requires within { IsWithin draft.old }
    ensures gives { Gives (λ next. turn_of draft.new next.now) error_of result (spec.input draft.old (word_of (symbol lexeme.entry))) }
    ensures within { OnOk result (IsWithin draft.new) }
{
    let Some(word) = lexeme.word() else {
        return Err(Refusal::Bad(DefError::Unexpected));
    };
    if draft.inputs.len() >= 4 {
        return Err(Refusal::Bad(DefError::TooMany(Which::Flows)));
    }
    let Some(sort) = flow_sort_of(word) else {
        return Err(Refusal::Bad(DefError::Unknown));
    };
    draft.inputs.push(sort)?;
    Ok(&[Expected::More(Listed::Inputs)])
}

/// A flow output of a hook.
#[tactic(auto, unfolding(crate::specs::Reading::output))]
fn output(draft: &mut Draft, lexeme: Lexeme) -> Met
    requires within { IsWithin draft.old }
    ensures gives { Gives (λ next. turn_of draft.new next.now) error_of result (spec.output draft.old (word_of (symbol lexeme.entry))) }
    ensures within { OnOk result (IsWithin draft.new) }
{
    let Some(word) = lexeme.word() else {
        return Err(Refusal::Bad(DefError::Unexpected));
    };
    if draft.outputs.len() >= 4 {
        return Err(Refusal::Bad(DefError::TooMany(Which::Flows)));
    }
    let Some(sort) = flow_sort_of(word) else {
        return Err(Refusal::Bad(DefError::Unknown));
    };
    draft.outputs.push(sort)?;
    Ok(&[Expected::More(Listed::Outputs)])
}

/// An entry of a list.
#[tactic(auto, unfolding(crate::specs::Reading::entry))]
fn entry(alloc: Global, draft: &mut Draft, list: Listed, lexeme: Lexeme) -> Met
    requires word { IsShort lexeme }
    requires within { IsWithin draft.old }
    ensures gives { Gives (λ next. turn_of draft.new next.now) error_of result (spec.entry draft.old list (symbol lexeme.entry)) }
    ensures within { OnOk result (IsWithin draft.new) }
{
    match list {
        Listed::Arguments => argument(draft, lexeme),
        Listed::Inputs => input(draft, lexeme),
        Listed::Outputs => output(draft, lexeme),
        Listed::Terms => variable(alloc, draft, Listed::Terms, lexeme),
        Listed::RuleInputs => variable(alloc, draft, Listed::RuleInputs, lexeme),
        Listed::RuleOutputs => variable(alloc, draft, Listed::RuleOutputs, lexeme),
        Listed::BoneArgs => variable(alloc, draft, Listed::BoneArgs, lexeme),
        Listed::BoneOuts => variable(alloc, draft, Listed::BoneOuts, lexeme),
        Listed::Exports => variable(alloc, draft, Listed::Exports, lexeme),
    }
}

/// The end of a constructor's arguments, and of the constructor.
fn close_arguments(alloc: Global, draft: &mut Draft) -> Met
    requires within { IsWithin draft.old }
    ensures gives { Gives (λ next. turn_of draft.new next.now) error_of result (spec.finished_con draft.old draft.old.con_name draft.old.sort) }
    ensures within { OnOk result (IsWithin draft.new) }
{
    let Some(name) = draft.con_name.take() else {
        return Err(Refusal::Bad(DefError::Unexpected));
    };
    let Some(sort) = draft.sort else {
        return Err(Refusal::Bad(DefError::Unexpected));
    };
    let args = draft.args.take(alloc);
    draft.def.cons.push(Con { name, sort, args })?;
    Ok(&[])
}

/// The end of a hook's outputs, and of the hook.
fn close_outputs(alloc: Global, draft: &mut Draft) -> Met
    requires within { IsWithin draft.old }
    ensures gives { Gives (λ next. turn_of draft.new next.now) error_of result (spec.finished_hook draft.old draft.old.hook_name draft.old.sort) }
    ensures within { OnOk result (IsWithin draft.new) }
{
    let Some(name) = draft.hook_name.take() else {
        return Err(Refusal::Bad(DefError::Unexpected));
    };
    let Some(sort) = draft.sort else {
        return Err(Refusal::Bad(DefError::Unexpected));
    };
    let inputs = draft.inputs.take(alloc);
    let outputs = draft.outputs.take(alloc);
    draft.def.hooks.push(Hook {
        name,
        inputs,
        sort,
        outputs,
    })?;
    draft.hooks.push(draft.begun)?;
    Ok(&[])
}

/// The end of a list.
#[tactic(auto, unfolding(crate::specs::Reading::closed))]
fn close(alloc: Global, draft: &mut Draft, list: Listed) -> Met
    requires within { IsWithin draft.old }
    ensures gives { Gives (λ next. turn_of draft.new next.now) error_of result (spec.closed draft.old list) }
    ensures within { OnOk result (IsWithin draft.new) }
{
    match list {
        Listed::Arguments => close_arguments(alloc, draft),
        Listed::Inputs => Ok(&[]),
        Listed::Outputs => close_outputs(alloc, draft),
        Listed::Terms => {
            draft.terms = draft.listed.take(alloc);
            Ok(&[])
        }
        Listed::RuleInputs => {
            draft.rule_inputs = draft.listed.take(alloc);
            Ok(&[])
        }
        Listed::BoneArgs => {
            draft.bone_args = draft.listed.take(alloc);
            Ok(&[])
        }
        Listed::BoneOuts => finish_bone(alloc, draft),
        Listed::Exports => finish_branches(alloc, draft),
        Listed::RuleOutputs => finish_rule(alloc, draft),
    }
}

/// The first entry of a list, or its end.
#[tactic(auto, unfolding(crate::specs::Reading::first))]
fn first(alloc: Global, draft: &mut Draft, list: Listed, lexeme: Lexeme) -> Met
    requires word { IsShort lexeme }
    requires within { IsWithin draft.old }
    ensures gives { Gives (λ next. turn_of draft.new next.now) error_of result (spec.first draft.old list (symbol lexeme.entry)) }
    ensures within { OnOk result (IsWithin draft.new) }
{
    if lexeme.is_close() {
        close(alloc, draft, list)
    } else {
        entry(alloc, draft, list, lexeme)
    }
}

/// The comma before a further entry, or the end of the list.
#[tactic(auto, unfolding(crate::specs::Reading::more))]
fn more(alloc: Global, draft: &mut Draft, list: Listed, lexeme: Lexeme) -> Met
    requires word { IsShort lexeme }
    requires within { IsWithin draft.old }
    ensures gives { Gives (λ next. turn_of draft.new next.now) error_of result (spec.more draft.old list (symbol lexeme.entry)) }
    ensures within { OnOk result (IsWithin draft.new) }
{
    if lexeme.is_close() {
        close(alloc, draft, list)
    } else if lexeme.is_comma() {
        Ok(next(list))
    } else {
        Err(Refusal::Bad(DefError::Unexpected))
    }
}

fn next(list: Listed) -> &'static [Expected]
    ensures { result.now ≡ expected.Next list ∷ [] }
{
    match list {
        Listed::Arguments => &[Expected::Next(Listed::Arguments)],
        Listed::Inputs => &[Expected::Next(Listed::Inputs)],
        Listed::Outputs => &[Expected::Next(Listed::Outputs)],
        Listed::Terms => &[Expected::Next(Listed::Terms)],
        Listed::RuleInputs => &[Expected::Next(Listed::RuleInputs)],
        Listed::RuleOutputs => &[Expected::Next(Listed::RuleOutputs)],
        Listed::BoneArgs => &[Expected::Next(Listed::BoneArgs)],
        Listed::BoneOuts => &[Expected::Next(Listed::BoneOuts)],
        Listed::Exports => &[Expected::Next(Listed::Exports)],
    }
}

/// Bones, or the `}` after them.
fn bones(alloc: Global, draft: &mut Draft, body: Body, lexeme: Lexeme, at: usize) -> Met
    requires within { IsWithin draft.old }
    ensures gives { Gives (λ next. turn_of draft.new next.now) error_of result (spec.bones draft.old body at (symbol lexeme.entry)) }
    ensures within { OnOk result (IsWithin draft.new) }
{
    if lexeme.is_right_brace() {
        end_bones(alloc, draft, body)
    } else {
        bone(alloc, draft, body, lexeme, at)
    }
}

/// The `{` of a branch.
fn branch_open(draft: &mut Draft, lexeme: Lexeme) -> Met
    requires within { IsWithin draft.old }
    ensures gives { Gives (λ next. turn_of draft.new next.now) error_of result (spec.branch_open draft.old (symbol lexeme.entry)) }
    ensures within { OnOk result (IsWithin draft.new) }
{
    if lexeme.is_left_brace() {
        begin_branch(draft)
    } else {
        Err(Refusal::Bad(DefError::Unexpected))
    }
}

/// The `->` before a rule's outputs.
fn closing(draft: &mut Draft, lexeme: Lexeme, at: usize) -> Met
    requires within { IsWithin draft.old }
    ensures gives { Gives (λ next. turn_of draft.new next.now) error_of result (spec.closing draft.old at (symbol lexeme.entry)) }
    ensures within { OnOk result (IsWithin draft.new) }
{
    if !lexeme.is_arrow() {
        return Err(Refusal::Bad(DefError::Unexpected));
    }
    draft.closing = at;
    Ok(&[])
}

/// What a token is where this is expected.
#[tactic(auto, unfolding(crate::specs::Reading::step))]
pub(crate) fn meet(
    alloc: Global,
    draft: &mut Draft,
    expected: Expected,
    lexeme: Lexeme,
    at: usize,
) -> Met
    requires word { IsShort lexeme }
    requires within { IsWithin draft.old }
    ensures gives { Gives (λ next. turn_of draft.new next.now) error_of result (spec.step draft.old expected at (symbol lexeme.entry)) }
    ensures within { OnOk result (IsWithin draft.new) }
{
    match expected {
        Expected::Skel => skel(lexeme),
        Expected::Version => version(lexeme),
        Expected::Item => item(draft, lexeme, at),
        Expected::SortName => sort_name(alloc, draft, lexeme),
        Expected::ConName => con_name(alloc, draft, lexeme),
        Expected::HookName => hook_name(alloc, draft, lexeme),
        Expected::Colon => asked(lexeme.is_colon()),
        Expected::Arrow => asked(lexeme.is_arrow()),
        Expected::Open => asked(lexeme.is_open()),
        Expected::SortUsed => sort_used(draft, lexeme),
        Expected::First(list) => first(alloc, draft, list, lexeme),
        Expected::More(list) => more(alloc, draft, list, lexeme),
        Expected::Next(list) => entry(alloc, draft, list, lexeme),
        Expected::RuleHook => rule_hook(draft, lexeme),
        Expected::RuleCon => rule_con(draft, lexeme),
        Expected::LeftBrace => asked(lexeme.is_left_brace()),
        Expected::Bones(body) => bones(alloc, draft, body, lexeme, at),
        Expected::BoneTarget => target(alloc, draft, lexeme),
        Expected::BranchOpen => branch_open(draft, lexeme),
        Expected::OrFirst => or_first(lexeme),
        Expected::OrMore => or_more(lexeme),
        Expected::Closing => closing(draft, lexeme, at),
    }
}
