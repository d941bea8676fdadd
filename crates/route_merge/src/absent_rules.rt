//! The absent entries of rules, to find whether one of them matches a rule.
ghost use Rattle.std.specs.Prelude.{◌≡◌, ◌&&◌, ◌++◌, ◌∷◌, [], List, None, true, if◌then◌else◌, IfOk, OnOk};
ghost use Rattle.std.specs.List.{list_any};
ghost use Rattle.std.specs.BTreeSet.{contains, Updates};
ghost use Rattle.document_model.specs.declared.RuleEntry.{RuleEntry};
ghost use Rattle.merge_model.specs.RuleNumbers.{rule_matches};
ghost use Rattle.route_merge.specs.AbsentRules.{stated_cmp, stated_of, alike_to_dst, alike, narrowed, HasShapes, HasStated};

use document_model::RuleEntry;
use net_model::{Name, Rule, Subnet, Target};
use std::alloc::{AllocError, Global};
use std::collections::BTreeSet;
use std::marker::Model;

// What an absent entry states.
#[derive(Clone, Copy, PartialEq, Eq, PartialOrd, Ord)]
pub(crate) struct StatedRule {
    priority: Option<u32>,
    v6: Option<bool>,
    src: Option<Subnet>,
    dst: Option<Subnet>,
    iif: Option<Name>,
    mark: Option<u32>,
    mask: Option<u32>,
    target: Option<Target>,
}

// The same as an item of a set.
#[derive(Clone, Copy, PartialEq, Eq, PartialOrd, Ord)]
pub(crate) struct Stated {
    rule: StatedRule,
}

impl Model for Stated {
    ghost use Rattle.route_merge.specs.declared.absent_rules.StatedRule.{StatedRule};

    ghost Value = { StatedRule };

    ghost view = { λ s. s.rule };

    ghost inverse = { λ r. record { rule = r } };
}

fn stated_of(entry: &RuleEntry) -> StatedRule
    ensures { result ≡ stated_of entry.now }
{
    StatedRule {
        priority: entry.priority,
        v6: entry.v6,
        src: entry.src,
        dst: entry.dst,
        iif: entry.iif,
        mark: entry.mark,
        mask: entry.mask,
        target: entry.target,
    }
}

fn alike_to_dst(a: &StatedRule, b: &StatedRule) -> bool
    ensures { result ≡ alike_to_dst a.now b.now }
{
    a.priority.is_some() == b.priority.is_some()
        && a.v6.is_some() == b.v6.is_some()
        && a.src.is_some() == b.src.is_some()
        && a.dst.is_some() == b.dst.is_some()
}

// Whether both state the same fields, whatever their values.
fn alike(a: &StatedRule, b: &StatedRule) -> bool
    ensures { result ≡ alike a.now b.now }
{
    alike_to_dst(a, b)
        && a.iif.is_some() == b.iif.is_some()
        && a.mark.is_some() == b.mark.is_some()
        && a.mask.is_some() == b.mask.is_some()
        && a.target.is_some() == b.target.is_some()
}

fn subnet_if(stated: bool, subnet: Option<Subnet>) -> Option<Subnet>
    ensures { result ≡ (if stated then subnet else None) }
{
    if stated { subnet } else { None }
}

fn name_if(stated: bool, name: Option<Name>) -> Option<Name>
    ensures { result ≡ (if stated then name else None) }
{
    if stated { name } else { None }
}

// What an entry that states these fields has to state to match the rule.
fn narrowed(shape: &StatedRule, rule: &Rule) -> StatedRule
    ensures { result ≡ narrowed shape.now rule.now }
{
    StatedRule {
        priority: shape.priority.is_some().then_some(rule.priority),
        v6: shape.v6.is_some().then_some(rule.v6),
        src: subnet_if(shape.src.is_some(), rule.src),
        dst: subnet_if(shape.dst.is_some(), rule.dst),
        iif: name_if(shape.iif.is_some(), rule.iif),
        mark: shape.mark.is_some().then_some(rule.mark),
        mask: shape.mask.is_some().then_some(rule.mask),
        target: shape.target.is_some().then_some(rule.target),
    }
}

fn has_shape(shapes: &[StatedRule], stated: &StatedRule) -> bool
    ensures { result ≡ list_any (λ s. alike s stated.now) shapes.now }
{
    shapes.iter().any(|shape| alike(shape, stated))
}

// One more, unless one that states the same fields is there.
#[tactic(auto, using(crate::proofs::AbsentRules::shape_passed, crate::proofs::AbsentRules::shape_pushed))]
fn push_shape(shapes: &mut Vec<StatedRule>, entry: &RuleEntry) -> Result<(), AllocError>
    ensures { OnOk result ((es : List RuleEntry) → HasShapes shapes.old.items es → HasShapes shapes.new.items (es ++ entry.now ∷ [])) }
{
    if !entry.absent {
        return Ok(());
    }
    let stated = stated_of(entry);
    if has_shape(shapes, &stated) {
        return Ok(());
    }
    shapes.push(stated)?;
    Ok(())
}

fn insert(set: &mut BTreeSet<Stated>, stated: StatedRule) -> Result<(), AllocError>
    ensures { OnOk result (Updates stated_cmp set.old set.new stated true) }
{
    set.insert(Stated { rule: stated })?;
    Ok(())
}

#[tactic(auto, using(crate::proofs::AbsentRules::stated_kept, crate::proofs::AbsentRules::stated_pushed))]
fn push_stated(set: &mut BTreeSet<Stated>, entry: &RuleEntry) -> Result<(), AllocError>
    ensures { OnOk result ((es : List RuleEntry) → HasStated set.old es → HasStated set.new (es ++ entry.now ∷ [])) }
{
    if !entry.absent {
        return Ok(());
    }
    insert(set, stated_of(entry))
}

// Whether an entry that states these fields matches the rule.
fn matches_shape(set: &BTreeSet<Stated>, shape: &StatedRule, rule: &Rule) -> bool
    ensures { result ≡ contains stated_cmp set.now (narrowed shape.now rule.now) }
{
    set.contains(&Stated {
        rule: narrowed(shape, rule),
    })
}

fn matches_any(shapes: &[StatedRule], set: &BTreeSet<Stated>, rule: &Rule) -> bool
    ensures { result ≡ list_any (λ s. contains stated_cmp set.now (narrowed s rule.now)) shapes.now }
{
    shapes.iter().any(|shape| matches_shape(set, shape, rule))
}

/// Entries of rules, by what the absent ones state: which fields some of them state, and a set of all that they state. A
/// rule is looked up once for each choice of fields, of which there are at most 256.
#[derive(Drop)]
pub(crate) struct AbsentRules<'a> {
    entries: &'a [RuleEntry],
    shapes: Vec<StatedRule>,
    stated: BTreeSet<Stated>,
}

impl<'a> Model for AbsentRules<'a> {
    ghost use Rattle.std.specs.Prelude.{List};
    ghost use Rattle.document_model.specs.declared.RuleEntry.{RuleEntry};
    ghost use Rattle.route_merge.specs.AbsentRules.{HasShapes, HasStated};

    ghost Value = { List RuleEntry };

    ghost view = { λ a. a.entries.now };

    ghost invariant = { λ a. HasShapes a.shapes.items a.entries.now × HasStated a.stated a.entries.now };
}

impl<'a> AbsentRules<'a> {
    /// The entries with their index. The error is that memory is out.
    pub(crate) fn of(alloc: Global, entries: &'a [RuleEntry]) -> Result<AbsentRules<'a>, AllocError>
        ensures { IfOk result (λ absent. absent ≡ entries.now) }
    {
        let mut shapes = Vec::new(alloc);
        let mut stated = BTreeSet::new(alloc);
        for entry in entries {
            push_shape(&mut shapes, entry)?;
            push_stated(&mut stated, entry)?;
        }
        Ok(AbsentRules {
            entries,
            shapes,
            stated,
        })
    }

    /// Whether an absent entry matches the rule.
    pub(crate) fn has(&self, rule: &Rule) -> bool
        ensures { result ≡ list_any (λ e. e.absent && rule_matches e rule.now) self.now }
    {
        matches_any(&self.shapes, &self.stated, rule)
    }
}
