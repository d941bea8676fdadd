//! Merged rules with an index, and the numbers of those without a priority.
ghost use Rattle.std.specs.Prelude.{◌≡◌, ◌++◌, ◌∷◌, [], if◌then◌else◌, length, IfOk, IfSome};
ghost use Rattle.std.specs.List.{list_any};
ghost use Rattle.net_model.specs.Valid.{same_body, same_rule};
ghost use Rattle.merge_model.specs.RuleNumbers.{free_from, take_unnumbered};
ghost use Rattle.route_merge.specs.Taken.{without_number};

use net_model::Rule;
use std::alloc::{AllocError, Global};
use std::collections::BTreeSet;
use std::marker::Model;

// Where the numbers of rules without a priority begin.
const FIRST_NUMBER: u32 = 30000;

// Rules in the order in which they were taken, with an index.
#[derive(Drop)]
pub(crate) struct Taken {
    rules: Vec<Rule>,
    equal: BTreeSet<Rule>,
    // The rules, each with the priority 0.
    bodies: BTreeSet<Rule>,
    numbers: BTreeSet<u32>,
    // All numbers from the first one up to this are taken.
    next: u32,
}

impl Model for Taken {
    ghost use Rattle.std.specs.Prelude.{List};
    ghost use Rattle.net_model.specs.Rule.{RuleParts};
    ghost use Rattle.route_merge.specs.Taken.{IsIndexed};

    ghost Value = { List RuleParts };

    ghost view = { λ t. t.rules.items };

    ghost invariant = { λ t. IsIndexed t.rules.items t.equal t.bodies t.numbers t.next };
}

fn without_number(rule: &Rule) -> Rule
    ensures { result ≡ without_number rule.now }
{
    Rule {
        priority: 0,
        ..*rule
    }
}

impl Taken {
    pub(crate) fn new(alloc: Global) -> Taken
        ensures { result ≡ [] }
    {
        Taken {
            rules: Vec::new(alloc),
            equal: BTreeSet::new(alloc),
            bodies: BTreeSet::new(alloc),
            numbers: BTreeSet::new(alloc),
            next: FIRST_NUMBER,
        }
    }

    fn has(&self, rule: &Rule) -> bool
        ensures { result ≡ list_any (λ t. same_rule t rule.now) self.now }
    {
        self.equal.contains(rule)
    }

    fn has_body(&self, rule: &Rule) -> bool
        ensures { result ≡ list_any (λ t. same_body t rule.now) self.now }
    {
        self.bodies.contains(&without_number(rule))
    }

    fn push(self, rule: Rule) -> Result<Taken, AllocError>
        ensures { IfOk result (λ taken. taken ≡ self ++ rule ∷ []) }
    {
        let Taken {
            mut rules,
            mut equal,
            mut bodies,
            mut numbers,
            next,
        } = self;
        equal.insert(rule)?;
        bodies.insert(without_number(&rule))?;
        numbers.insert(rule.priority)?;
        rules.push(rule)?;
        Ok(Taken {
            rules,
            equal,
            bodies,
            numbers,
            next,
        })
    }

    // Takes a rule, unless an equal one was taken.
    pub(crate) fn add(self, rule: &Rule) -> Result<Taken, AllocError>
        ensures { IfOk result (λ taken. taken ≡ (if list_any (λ t. same_rule t rule.now) self then self else self ++ rule.now ∷ [])) }
    {
        if self.has(rule) {
            Ok(self)
        } else {
            self.push(*rule)
        }
    }

    // The least number from 30000 on that no rule has, or none where all are taken.
    fn free_number(&mut self) -> Option<u32>
        ensures stays { self.new ≡ self.old }
        ensures number { IfSome result (λ number. number ≡ free_from self.old (length self.old) 30000) }
    {
        let mut number = self.next;
        while self.numbers.contains(&number) {
            number = number.checked_add(1)?;
        }
        self.next = number;
        Some(number)
    }

    // Takes a rule without a priority, unless one that equals it in all but the priority was taken. It gets the least free
    // number; where none is free, that is answered as out of memory.
    pub(crate) fn take_unnumbered(mut self, rule: &Rule) -> Result<Taken, AllocError>
        ensures { IfOk result (λ taken. taken ≡ take_unnumbered self rule.now) }
    {
        if self.has_body(rule) {
            return Ok(self);
        }
        let priority = self.free_number().ok_or(AllocError)?;
        self.push(Rule { priority, ..*rule })
    }

    pub(crate) fn into_rules(self) -> Vec<Rule>
        ensures { result.items ≡ self }
    {
        self.rules
    }
}
