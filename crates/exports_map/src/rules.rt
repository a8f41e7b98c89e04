// The rules of a server.
ghost use Rattle.std.specs.Prelude.{◌≡◌, ◌≤◌, ◌<◌, ◌==◌, ℕ, List, length, find, position, IfOk, IfSome, Err};
ghost use Rattle.exports_map.specs.Access.{client_access, first_fit, fits, mapped_id};
ghost use Rattle.exports_map.specs.Rules.{AreRules, IsRefused, numbered_access, texts};
ghost use Rattle.exports_map.specs.declared.access.ExportRule.{ExportRule as Rule};
ghost use Rattle.exports_map.specs.declared.fault.RuleList.{RuleList as ListTerm};

use crate::access::{Access, ExportRule, IdPair, access_of_rule};
use crate::fault::{ItemFault, RuleFault, RuleList};
use crate::lists::{read_exports, read_pairs};
use std::alloc::Global;
use std::marker::Model;

/// Which clients may do what, and which ids stand for those of their callers.
#[derive(Drop)]
pub struct Rules {
    exports: Vec<ExportRule>,
    uids: Vec<IdPair>,
    gids: Vec<IdPair>,
}

impl Model for Rules {
    ghost use Rattle.std.specs.Prelude.{◌≤◌, vec_len};
    ghost use Rattle.exports_map.specs.Rules.{RuleSet};

    ghost Value = { RuleSet };

    ghost view = { λ r. record { exports = r.exports.items; uids = r.uids.items; gids = r.gids.items } };

    ghost invariant = { λ r. vec_len r.exports ≤ 256 };
}

fn list_fault(list: RuleList, fault: ItemFault) -> RuleFault
    ensures bad { (number : ℕ) → fault ≡ ItemFault.Bad number → result ≡ RuleFault.Bad list number }
    ensures memory { fault ≡ ItemFault.Memory → result ≡ RuleFault.Memory }
{
    match fault {
        ItemFault::Bad(item) => RuleFault::Bad { list, item },
        ItemFault::Memory => RuleFault::Memory,
    }
}

impl Rules {
    /// Reads the three lists: rules `A.B.C.D/N MODE`, of which the first that fits a client decides, and pairs of ids. The
    /// first text that is no item is refused, by its list and its number there. Takes memory.
    pub fn read(
        alloc: Global,
        exports: &[String],
        uids: &[String],
        gids: &[String],
    ) -> Result<Rules, RuleFault>
        requires few_exports { length exports.now ≤ 256 }
        requires few_uids { length uids.now ≤ 256 }
        requires few_gids { length gids.now ≤ 256 }
        ensures ok { IfOk result (λ rules. AreRules (texts exports.now) (texts uids.now) (texts gids.now) rules) }
        ensures bad { (list : ListTerm) (number : ℕ) → result ≡ Err (RuleFault.Bad list number)
            → IsRefused list number (texts exports.now) (texts uids.now) (texts gids.now) }
    {
        let exports = match read_exports(alloc, exports) {
            Ok(exports) => exports,
            Err(fault) => return Err(list_fault(RuleList::Exports, fault)),
        };
        let uids = match read_pairs(alloc, uids) {
            Ok(uids) => uids,
            Err(fault) => return Err(list_fault(RuleList::Uids, fault)),
        };
        let gids = match read_pairs(alloc, gids) {
            Ok(gids) => gids,
            Err(fault) => return Err(list_fault(RuleList::Gids, fault)),
        };
        Ok(Rules {
            exports,
            uids,
            gids,
        })
    }

    /// The number of the first rule that fits a client, from 1, or 0 where none does. Takes no memory.
    pub fn rule_of(&self, client: u32) -> u32
        ensures { result ≡ first_fit self.now.exports client }
    {
        match first_place(&self.exports, client) {
            Some(i) => i as u32 + 1,
            None => 0,
        }
    }

    /// What a client may do: all, where there is no rule; else what the first rule that fits it says. Takes no memory.
    pub fn access_of(&self, client: u32) -> Access
        ensures { result ≡ client_access self.now.exports client }
    {
        if self.exports.is_empty() {
            return Access::Full;
        }
        access_of_rule(first_rule(&self.exports, client))
    }

    /// The user id that stands for this one.
    pub fn uid_of(&self, uid: u32) -> u32
        ensures { result ≡ mapped_id self.now.uids uid }
    {
        given_id(&self.uids, uid)
    }

    /// The group id that stands for this one.
    pub fn gid_of(&self, gid: u32) -> u32
        ensures { result ≡ mapped_id self.now.gids gid }
    {
        given_id(&self.gids, gid)
    }
}

// Where the first rule that fits a client stands.
fn first_place(rules: &[ExportRule], client: u32) -> Option<usize>
    ensures value { result ≡ position (fits client) rules.now }
    ensures inside { IfSome result (λ i. i < length rules.now) }
{
    rules.iter().position(|rule| rule.fits(client))
}

fn first_rule(rules: &[ExportRule], client: u32) -> Option<ExportRule>
    ensures { result ≡ find (fits client) rules.now }
{
    rules.iter().copied().find(|rule| rule.fits(client))
}

fn first_pair(pairs: &[IdPair], id: u32) -> Option<IdPair>
    ensures { result ≡ find (λ pair. pair.asked == id) pairs.now }
{
    pairs.iter().copied().find(|pair| pair.asked == id)
}

// The id of the first pair that asks for this one, or this one.
fn given_id(pairs: &[IdPair], id: u32) -> u32
    ensures { result ≡ mapped_id pairs.now id }
{
    match first_pair(pairs, id) {
        Some(pair) => pair.given,
        None => id,
    }
}

/// The number of the rule decides what a client may do.
pub fn access_law()
    ensures { (rules : List Rule) (client : ℕ) → client_access rules client ≡ numbered_access rules (first_fit rules client) }
{}
