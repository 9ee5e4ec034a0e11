//! The labels that rules name, and whether each is that of some rule.
ghost use Rattle.std.specs.Prelude.{◌≡◌, ◌<◌, ◌^◌, ◌++◌, None, Some, length, IfOk, OnOk, IfErr};
ghost use Rattle.std.specs.List.{flat_map, list_all};
ghost use Rattle.std.specs.Option.{option_map, option_to_list};
ghost use Rattle.od_grammar.specs.Telling.{Tells};
ghost use Rattle.od_grammar.specs.Known.{AddsLabel, AreLabels, unknown_label};
ghost use Rattle.od_rule_text.specs.Grammars.{label_fault};
ghost use Rattle.od_rule_text.specs.Labels.{body_labels, surface_labels};
ghost use Rattle.od_rule_text.specs.Texts.{is_among};

use od_names::names::Names;
use od_pattern::pattern::Surface;
use od_pattern::rule::{Argument, Body, EventRule, Hop, HopPart, Rule};
use od_rule_text::grammar_fault::GrammarFault;
use od_text::text::{NoMemory, Text};
use std::alloc::Global;

/// Takes up a label that may be there already.
fn note_label(alloc: Global, labels: &mut Names, label: &Text) -> Result<(), NoMemory>
    ensures { OnOk result (AddsLabel label.now labels.old labels.new) }
{
    match labels.place(label) {
        Some(_) => Ok(()),
        None => {
            labels.push(alloc, label)?;
            Ok(())
        }
    }
}

/// The different labels of rules.
fn labels_of(alloc: Global, rules: &[Rule]) -> Result<Names, NoMemory>
    ensures { IfOk result (λ labels. AreLabels labels rules.now) }
{
    let mut labels = Names::new(alloc);
    for rule in rules {
        note_label(alloc, &mut labels, &rule.label)?;
    }
    Ok(labels)
}

/// Whether a label is one of these.
fn is_known(labels: &Names, label: &Text) -> bool
    ensures { result ≡ is_among labels.now label.now }
{
    labels.place(label).is_some()
}

/// Whether all labels of a surface pattern are known.
#[cycle(surface)]
#[tactic(auto, using(crate::proofs::SurfaceLabels::labels_seq, crate::proofs::SurfaceLabels::labels_alt), unfolding(od_rule_text::specs::Labels::surface_labels))]
fn surface_is_known(labels: &Names, surface: &Surface) -> bool
    ensures { result ≡ list_all (is_among labels.now) (surface_labels surface.now) }
{
    match surface {
        Surface::Token(_) | Surface::Look { .. } | Surface::First | Surface::Last => true,
        Surface::Label(name) => is_known(labels, name),
        Surface::Seq(parts) | Surface::Alt(parts) => surfaces_are_known(labels, parts.get()),
        Surface::Repeat(body, _) => surface_is_known(labels, body.get()),
        Surface::Capture(_, body) => surface_is_known(labels, body.get()),
    }
}

/// Whether all labels of surface patterns are known.
#[cycle(surface)]
fn surfaces_are_known(labels: &Names, parts: &[Surface]) -> bool
    ensures { result ≡ list_all (is_among labels.now) (flat_map surface_labels parts.now) }
{
    for part in parts {
        if !surface_is_known(labels, part) {
            return false;
        }
    }
    true
}

/// Whether all labels of the further parts of a hop are known. Their paths name none.
fn parts_are_known(labels: &Names, parts: &[HopPart]) -> bool
    ensures { result ≡ list_all (is_among labels.now)
        (flat_map (λ part. surface_labels part.surface) parts.now) }
{
    for part in parts {
        if !surface_is_known(labels, &part.surface) {
            return false;
        }
    }
    true
}

/// Whether the label of an argument is known, where it has one.
fn argument_is_known(labels: &Names, argument: &Argument) -> bool
    ensures { result ≡ list_all (is_among labels.now) (option_to_list argument.now.label) }
{
    match &argument.label {
        None => true,
        Some(label) => is_known(labels, label),
    }
}

/// Whether all labels of arguments are known.
fn arguments_are_known(labels: &Names, arguments: &[Argument]) -> bool
    ensures { result ≡ list_all (is_among labels.now)
        (flat_map (λ argument. option_to_list argument.label) arguments.now) }
{
    for argument in arguments {
        if !argument_is_known(labels, argument) {
            return false;
        }
    }
    true
}

/// Whether all labels of a hop are known.
fn hop_is_known(labels: &Names, hop: &Hop) -> bool
    ensures { result ≡ list_all (is_among labels.now) (body_labels (Body.Basic hop.now)) }
{
    if !surface_is_known(labels, &hop.first) {
        return false;
    }
    parts_are_known(labels, hop.rest.get())
}

/// Whether all labels of an event pattern are known.
fn event_is_known(labels: &Names, event: &EventRule) -> bool
    ensures { result ≡ list_all (is_among labels.now) (body_labels (Body.Event event.now)) }
{
    if !surface_is_known(labels, &event.trigger) {
        return false;
    }
    arguments_are_known(labels, event.arguments.get())
}

/// Whether all labels that a rule names are known.
fn body_is_known(labels: &Names, body: &Body) -> bool
    ensures { result ≡ list_all (is_among labels.now) (body_labels body.now) }
{
    match body {
        Body::Basic(hop) => hop_is_known(labels, hop),
        Body::Event(event) => event_is_known(labels, event),
    }
}

/// The number of the first rule, from 1, that names another label than those of the rules.
fn first_unknown(labels: &Names, rules: &[Rule]) -> Option<u32>
    requires labels { AreLabels labels.now rules.now }
    requires few { length rules.now < 2 ^ 32 }
    ensures { label_fault rules.now 1 rules.now ≡ option_map unknown_label result }
{
    let mut passed: u32 = 0;
    for rule in rules {
        if !body_is_known(labels, &rule.body) {
            return Some(passed + 1);
        }
        passed += 1;
    }
    None
}

/// Tests that each label that a rule names is that of some rule.
pub(crate) fn check_labels(alloc: Global, rules: &[Rule]) -> Result<(), GrammarFault>
    requires { length rules.now < 2 ^ 32 }
    ensures ok { OnOk result (label_fault rules.now 1 rules.now ≡ None) }
    ensures err { IfErr result (Tells (λ f. label_fault rules.now 1 rules.now ≡ Some f)) }
{
    let labels = labels_of(alloc, rules)?;
    match first_unknown(&labels, rules) {
        None => Ok(()),
        Some(rule) => Err(GrammarFault::UnknownLabel { rule }),
    }
}
