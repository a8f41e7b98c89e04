// Lists of items.
ghost use Rattle.std.specs.Prelude.{◌≡◌, ◌≤◌, ℕ, length, Err, IfOk};
ghost use Rattle.exports_map.specs.Items.{IsExport, IsPair};
ghost use Rattle.exports_map.specs.Rules.{AreItems, IsFirstBad, texts as texts_of};

use crate::access::{ExportRule, IdPair};
use crate::fault::ItemFault;
use crate::item::{export_of, pair_of};
use std::alloc::Global;

/// The rules that texts are.
pub(crate) fn read_exports(alloc: Global, texts: &[String]) -> Result<Vec<ExportRule>, ItemFault>
    requires { length texts.now ≤ 256 }
    ensures ok { IfOk result (λ rules. AreItems IsExport (texts_of texts.now) rules.items) }
    ensures few { IfOk result (λ rules. length rules.items ≡ length texts.now) }
    ensures bad { (number : ℕ) → result ≡ Err (ItemFault.Bad number) → IsFirstBad IsExport (texts_of texts.now) number }
{
    let mut rules = Vec::new(alloc);
    for (i, text) in texts.iter().enumerate() {
        let Some(rule) = export_of(text.as_bytes()) else {
            return Err(ItemFault::Bad(i as u32 + 1));
        };
        if rules.push(rule).is_err() {
            return Err(ItemFault::Memory);
        }
    }
    Ok(rules)
}

/// The pairs that texts are.
pub(crate) fn read_pairs(alloc: Global, texts: &[String]) -> Result<Vec<IdPair>, ItemFault>
    requires { length texts.now ≤ 256 }
    ensures ok { IfOk result (λ pairs. AreItems IsPair (texts_of texts.now) pairs.items) }
    ensures bad { (number : ℕ) → result ≡ Err (ItemFault.Bad number) → IsFirstBad IsPair (texts_of texts.now) number }
{
    let mut pairs = Vec::new(alloc);
    for (i, text) in texts.iter().enumerate() {
        let Some(pair) = pair_of(text.as_bytes()) else {
            return Err(ItemFault::Bad(i as u32 + 1));
        };
        if pairs.push(pair).is_err() {
            return Err(ItemFault::Memory);
        }
    }
    Ok(pairs)
}
