//! The words of what an answer carries: what stands after a fault, a rule of the merge and its place, an area.
ghost use Rattle.std.specs.Prelude.{◌≡◌, ◌≤◌, ◌+◌, ◌++◌, length, codes, decimal};
ghost use Rattle.top_model.specs.Said.{times};
ghost use Rattle.top_model.specs.Texts.{left_words, rule_name, which_words, place_words, merge_words, area_words};

use crate::line::{Line, ROOM, push_number};
use document_model::{Place, Refused};
use engine_model::Left;
use host_core::Area;

pub(crate) fn left_words(left: Left) -> &'static [u8]
    ensures text { result.now ≡ left_words left }
    ensures short { length result.now ≤ 16 }
{
    match left {
        Left::NotBegun => b"not begun",
        Left::RolledBack => b"rolled back",
        Left::Pending => b"rollback pending",
    }
}

pub(crate) fn area_words(area: u8) -> &'static [u8]
    ensures text { result.now ≡ area_words area }
    ensures short { length result.now ≤ 20 }
{
    if area == Area::Kernel.number() {
        b"kernel area damaged"
    } else {
        b"checkpoint damaged"
    }
}

// When a change was made, and its deadline.
pub(crate) fn times(since: u64, deadline: u64) -> Line
    ensures text { result ≡ times since deadline }
    ensures short { length result ≤ 100 }
{
    let mut words = Line::new();
    words.push(b"made ");
    push_number(&mut words, since);
    words.push(b", deadline ");
    push_number(&mut words, deadline);
    words
}

fn rule_name(rule: u8) -> &'static [u8]
    ensures text { result.now ≡ rule_name rule }
    ensures short { length result.now ≤ 16 }
{
    match rule {
        0 | 1 => b"DuplicateName",
        2 => b"NoType",
        3 => b"NoDevice",
        4 => b"PhysicalKind",
        5 => b"MissingDetail",
        6 => b"PortMissing",
        7 => b"PortTwice",
        8 => b"PortConflict",
        9 => b"PortKind",
        10 => b"BadBase",
        11 => b"Cycle",
        12 => b"VlanTwin",
        13 => b"BaseDown",
        14 => b"VlanMtu",
        15 => b"BondOptions",
        16 => b"PortAddress",
        17 => b"AddressTwice",
        18 => b"RouteDevice",
        19 => b"RouteGateway",
        20 => b"RouteTwin",
        21 => b"Limit",
        22 => b"PeerBroken",
        _ => b"",
    }
}

// Appends which of the limits is passed, where the rule is that on limits.
fn push_which(words: &mut Line, which: u8)
    requires { length words.old + 50 ≤ ROOM }
    ensures added { words.new ≡ words.old ++ which_words which }
    ensures long { length words.new ≤ length words.old + 50 }
{
    if which != 0 {
        words.push(b" ");
        push_number(words, which as u64);
    }
}

fn push_position(words: &mut Line, list: &'static [u8], position: u32)
    requires room { length words.old + length list.now + 50 ≤ ROOM }
    ensures added { words.new ≡ words.old ++ list.now ++ decimal position ++ codes "]" }
    ensures long { length words.new ≤ length words.old + length list.now + 50 }
{
    words.push(list);
    push_number(words, position as u64);
    words.push(b"]");
}

// Appends where a rule is broken.
fn push_place(words: &mut Line, place: Place)
    requires { length words.old + 80 ≤ ROOM }
    ensures added { words.new ≡ words.old ++ place_words place }
    ensures long { length words.new ≤ length words.old + 80 }
{
    match place {
        Place::Link(name) => {
            words.push(b" at ");
            words.push(name.as_bytes());
        }
        Place::Route(position) => push_position(words, b" at routes.config[", position),
        Place::Rule(position) => push_position(words, b" at route-rules.config[", position),
        Place::Whole => {}
    }
}

/// The rule that a document breaks, and where.
pub(crate) fn merge_words(refused: &Refused) -> Line
    ensures text { result ≡ merge_words refused.now }
    ensures short { length result ≤ 220 }
{
    let mut words = Line::new();
    words.push(b"merge rule ");
    push_number(&mut words, refused.rule as u64);
    words.push(b" ");
    words.push(rule_name(refused.rule));
    push_which(&mut words, refused.which);
    push_place(&mut words, refused.place);
    words
}
