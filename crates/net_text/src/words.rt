//! The words of the model's settings, as plans, documents and printed states spell them, and what they are read as.
ghost use Rattle.std.specs.Prelude.{◌≡◌, ◌↔◌, Bool, Some};
ghost use Rattle.net_model.specs.declared.options.BondMode.{BondMode};
ghost use Rattle.net_model.specs.declared.options.HashPolicy.{HashPolicy};
ghost use Rattle.net_model.specs.declared.options.LacpRate.{LacpRate};
ghost use Rattle.net_model.specs.declared.options.Proto.{Proto};
ghost use Rattle.net_text.specs.Line.{mode_word, rate_word, policy_word, proto_word, bool_word, family_word};
ghost use Rattle.net_text.specs.Words.{word_in, modes, rates, policies, protocols, booleans, families};

use net_model::{BondMode, HashPolicy, LacpRate, Proto};

/// The word for a bond's mode.
pub fn mode_word(mode: BondMode) -> &'static str
    ensures { result.now ≡ mode_word mode }
{
    match mode {
        BondMode::BalanceRr => "balance-rr",
        BondMode::ActiveBackup => "active-backup",
        BondMode::BalanceXor => "balance-xor",
        BondMode::Broadcast => "broadcast",
        BondMode::Ieee8023ad => "802.3ad",
        BondMode::BalanceTlb => "balance-tlb",
        BondMode::BalanceAlb => "balance-alb",
    }
}

fn mode_of(word: &str) -> Option<BondMode>
    ensures { result ≡ word_in modes word.now }
{
    match word {
        "balance-rr" => Some(BondMode::BalanceRr),
        "active-backup" => Some(BondMode::ActiveBackup),
        "balance-xor" => Some(BondMode::BalanceXor),
        "broadcast" => Some(BondMode::Broadcast),
        "802.3ad" => Some(BondMode::Ieee8023ad),
        "balance-tlb" => Some(BondMode::BalanceTlb),
        "balance-alb" => Some(BondMode::BalanceAlb),
        _ => None,
    }
}

/// A bond's mode, exactly where the string is its word.
pub fn read_mode(word: &str) -> Option<BondMode>
    ensures value { result ≡ word_in modes word.now }
    ensures exact { (mode : BondMode) → (result ≡ Some mode) ↔ (word.now ≡ mode_word mode) }
{
    mode_of(word)
}

/// The word for an LACP rate.
pub fn rate_word(rate: LacpRate) -> &'static str
    ensures { result.now ≡ rate_word rate }
{
    match rate {
        LacpRate::Slow => "slow",
        LacpRate::Fast => "fast",
    }
}

fn rate_of(word: &str) -> Option<LacpRate>
    ensures { result ≡ word_in rates word.now }
{
    match word {
        "slow" => Some(LacpRate::Slow),
        "fast" => Some(LacpRate::Fast),
        _ => None,
    }
}

/// An LACP rate, exactly where the string is its word.
pub fn read_rate(word: &str) -> Option<LacpRate>
    ensures value { result ≡ word_in rates word.now }
    ensures exact { (rate : LacpRate) → (result ≡ Some rate) ↔ (word.now ≡ rate_word rate) }
{
    rate_of(word)
}

/// The word for a transmit hash policy.
pub fn policy_word(policy: HashPolicy) -> &'static str
    ensures { result.now ≡ policy_word policy }
{
    match policy {
        HashPolicy::Layer2 => "layer2",
        HashPolicy::Layer23 => "layer2+3",
        HashPolicy::Layer34 => "layer3+4",
        HashPolicy::Encap23 => "encap2+3",
        HashPolicy::Encap34 => "encap3+4",
        HashPolicy::VlanSrcmac => "vlan+srcmac",
    }
}

fn policy_of(word: &str) -> Option<HashPolicy>
    ensures { result ≡ word_in policies word.now }
{
    match word {
        "layer2" => Some(HashPolicy::Layer2),
        "layer2+3" => Some(HashPolicy::Layer23),
        "layer3+4" => Some(HashPolicy::Layer34),
        "encap2+3" => Some(HashPolicy::Encap23),
        "encap3+4" => Some(HashPolicy::Encap34),
        "vlan+srcmac" => Some(HashPolicy::VlanSrcmac),
        _ => None,
    }
}

/// A transmit hash policy, exactly where the string is its word.
pub fn read_policy(word: &str) -> Option<HashPolicy>
    ensures value { result ≡ word_in policies word.now }
    ensures exact { (policy : HashPolicy) → (result ≡ Some policy) ↔ (word.now ≡ policy_word policy) }
{
    policy_of(word)
}

/// The word for a VLAN protocol.
pub fn proto_word(proto: Proto) -> &'static str
    ensures { result.now ≡ proto_word proto }
{
    match proto {
        Proto::Dot1q => "802.1q",
        Proto::Dot1ad => "802.1ad",
    }
}

fn proto_of(word: &str) -> Option<Proto>
    ensures { result ≡ word_in protocols word.now }
{
    match word {
        "802.1q" => Some(Proto::Dot1q),
        "802.1ad" => Some(Proto::Dot1ad),
        _ => None,
    }
}

/// A VLAN protocol, exactly where the string is its word.
pub fn read_proto(word: &str) -> Option<Proto>
    ensures value { result ≡ word_in protocols word.now }
    ensures exact { (proto : Proto) → (result ≡ Some proto) ↔ (word.now ≡ proto_word proto) }
{
    proto_of(word)
}

/// The word for a boolean.
pub fn bool_word(value: bool) -> &'static str
    ensures { result.now ≡ bool_word value }
{
    if value { "true" } else { "false" }
}

fn bool_of(word: &str) -> Option<bool>
    ensures { result ≡ word_in booleans word.now }
{
    match word {
        "false" => Some(false),
        "true" => Some(true),
        _ => None,
    }
}

/// A boolean, exactly where the string is its word.
pub fn read_bool(word: &str) -> Option<bool>
    ensures value { result ≡ word_in booleans word.now }
    ensures exact { (value : Bool) → (result ≡ Some value) ↔ (word.now ≡ bool_word value) }
{
    bool_of(word)
}

/// The word for an address family, of IPv6 or else of IPv4.
pub fn family_word(v6: bool) -> &'static str
    ensures { result.now ≡ family_word v6 }
{
    if v6 { "ipv6" } else { "ipv4" }
}

fn family_of(word: &str) -> Option<bool>
    ensures { result ≡ word_in families word.now }
{
    match word {
        "ipv4" => Some(false),
        "ipv6" => Some(true),
        _ => None,
    }
}

/// An address family as whether it is IPv6, exactly where the string is its word.
pub fn read_family(word: &str) -> Option<bool>
    ensures value { result ≡ word_in families word.now }
    ensures exact { (v6 : Bool) → (result ≡ Some v6) ↔ (word.now ≡ family_word v6) }
{
    family_of(word)
}
