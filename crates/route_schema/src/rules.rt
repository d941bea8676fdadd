//! `route-rules`.
ghost use Rattle.std.specs.Prelude.{◌≡◌, ◌&&◌, true, IfOk};
ghost use Rattle.std.specs.List.{list_all};
ghost use Rattle.doc_tree.specs.Shape.{shape};
ghost use Rattle.base_model.specs.Lists.{is_short};
ghost use Rattle.document_model.specs.Entries.{is_rule_entry};
ghost use Rattle.tree_schema.specs.Reached.{Answers};
ghost use Rattle.net_text.specs.Words.{word_in, families, actions};
ghost use Rattle.route_schema.specs.Rules.{rule_table, no_rule, is_one_family, is_of_family, target_of, rule_of, checked_rule, rule, rules_table, rules};

use crate::draft::RuleDraft;
use crate::words::{Subnets, absence, table};
use doc_tree::Tree;
use document_model::RuleEntry;
use net_model::{Items, Subnet, TableId, Target};
use net_text::read_family;
use tree_schema::{
    Form, Item, Names, Node, Reader, Reason, Section, Stop, formed, holds_or, mark, read_list,
    read_map, unless_empty, unless_minus_one,
};

/// The families, as whether it is IPv6.
struct Families;

impl Form for Families {
    type Value = bool;

    ghost form = { λ _. word_in families };

    ghost holds = { λ _ _. true };

    fn read(&self, text: &str) -> Option<bool> {
        read_family(text)
    }
}

struct Actions;

impl Form for Actions {
    type Value = Target;

    ghost form = { λ _. word_in actions };

    ghost holds = { λ _ _. true };

    fn read(&self, text: &str) -> Option<Target> {
        match text {
            "blackhole" => Some(Target::Blackhole),
            "unreachable" => Some(Target::Unreachable),
            "prohibit" => Some(Target::Prohibit),
            _ => None,
        }
    }
}

struct RuleKeys;

impl Section for RuleKeys {
    type Entry = RuleDraft;

    ghost table = { λ _. rule_table };

    ghost holds = { λ _ _. true };

    fn read_key(
        &self,
        _reader: &mut Reader,
        key: &str,
        value: &Tree,
        entry: &mut RuleDraft,
    ) -> Result<(), Stop> {
        match key {
            "state" => {
                entry.absent = absence(value)?;
                Ok(())
            }
            "ip-from" => {
                entry.src = unless_empty(&Subnets, value)?;
                Ok(())
            }
            "ip-to" => {
                entry.dst = unless_empty(&Subnets, value)?;
                Ok(())
            }
            "priority" => {
                entry.priority = unless_minus_one(value)?;
                Ok(())
            }
            "route-table" => {
                entry.table = Some(table(value)?);
                Ok(())
            }
            "family" => {
                entry.v6 = Some(formed(&Families, value)?);
                Ok(())
            }
            "iif" => {
                entry.iif = unless_empty(&Names, value)?;
                Ok(())
            }
            "fwmark" => {
                entry.mark = Some(mark(value)?);
                Ok(())
            }
            "fwmask" => {
                entry.mask = Some(mark(value)?);
                Ok(())
            }
            "action" => {
                entry.action = Some(formed(&Actions, value)?);
                Ok(())
            }
            _ => Err(Stop::Refused(Reason::UnknownKey)),
        }
    }
}

fn is_one_family(src: Option<Subnet>, dst: Option<Subnet>) -> bool
    ensures { result ≡ is_one_family src dst }
{
    match (src, dst) {
        (Some(src), Some(dst)) => src.is_v6() == dst.is_v6(),
        _ => true,
    }
}

fn is_of_family(v6: Option<bool>, subnet: Option<Subnet>) -> bool
    ensures { result ≡ is_of_family v6 subnet }
{
    match (v6, subnet) {
        (Some(v6), Some(subnet)) => subnet.is_v6() == v6,
        _ => true,
    }
}

fn target_of(action: Option<Target>, table: Option<TableId>) -> Option<Target>
    ensures { result ≡ target_of action table }
{
    match action {
        Some(action) => Some(action),
        None => Some(Target::Table(table?)),
    }
}

fn rule_of(draft: RuleDraft) -> RuleEntry
    ensures { result ≡ rule_of draft }
{
    let target = target_of(draft.action, draft.table);
    RuleEntry {
        absent: draft.absent,
        priority: draft.priority,
        v6: draft.v6,
        src: draft.src,
        dst: draft.dst,
        iif: draft.iif,
        mark: draft.mark,
        mask: draft.mask,
        target,
    }
}

fn checked_rule(reader: &mut Reader, draft: RuleDraft) -> Result<RuleEntry, Stop>
    ensures read { Answers (checked_rule draft) reader.old reader.new result }
    ensures right { IfOk result (λ e. is_rule_entry e ≡ true) }
{
    let one = is_one_family(draft.src, draft.dst);
    let draft = holds_or(reader, "ip-to", Reason::OutOfRange, one, draft)?;
    let stated = is_of_family(draft.v6, draft.src) && is_of_family(draft.v6, draft.dst);
    let draft = holds_or(reader, "family", Reason::OutOfRange, stated, draft)?;
    Ok(rule_of(draft))
}

struct Rules;

impl Item for Rules {
    type Value = RuleEntry;

    ghost reading = { λ _. rule };

    ghost holds = { λ _ e. is_rule_entry e };

    fn read(&self, reader: &mut Reader, tree: &Tree) -> Result<Option<RuleEntry>, Stop> {
        let mut draft = RuleDraft {
            absent: false,
            priority: None,
            v6: None,
            src: None,
            dst: None,
            iif: None,
            mark: None,
            mask: None,
            table: None,
            action: None,
        };
        read_map(&RuleKeys, reader, tree, &mut draft)?;
        let entry = checked_rule(reader, draft)?;
        Ok(Some(entry))
    }
}

struct SectionKeys;

impl Section for SectionKeys {
    type Entry = Items<RuleEntry>;

    ghost table = { λ _. rules_table };

    ghost holds = { λ _ rules. is_short rules && list_all is_rule_entry rules };

    fn read_key(
        &self,
        reader: &mut Reader,
        key: &str,
        value: &Tree,
        entry: &mut Items<RuleEntry>,
    ) -> Result<(), Stop> {
        match key {
            "config" => {
                *entry = read_list(&Rules, reader, value)?;
                Ok(())
            }
            _ => Err(Stop::Refused(Reason::UnknownKey)),
        }
    }
}

/// The section of the rules.
pub(crate) struct RuleSection;

impl Node for RuleSection {
    type Value = Items<RuleEntry>;

    ghost reading = { λ _. rules };

    ghost holds = { λ _ rules. is_short rules && list_all is_rule_entry rules };

    fn read(&self, reader: &mut Reader, tree: &Tree) -> Result<Items<RuleEntry>, Stop> {
        let mut entries = Items::of(Vec::new(reader.alloc()));
        read_map(&SectionKeys, reader, tree, &mut entries)?;
        Ok(entries)
    }
}
