ghost use Rattle.std.specs.Prelude.{◌≡◌, map};
ghost use Rattle.lk_claims.specs.Claim.{claim_tree, value_type};
ghost use Rattle.claim_types.specs.Views.{records_of, scope_names, view_type};
ghost use Rattle.step_checks.specs.Tests.{claim_passes as passes, given_passes as given};
ghost use Rattle.program_trees.specs.Claims as forms;

use claim_limits::is_within;
use claim_types::{Scope, TypeView, has_type, type_of};
use lk_claims::{Claim, Ty};
use slang_tree::rule_numbered;
use sqlite_items::Items;

/// How high a claim may be.
const HEIGHT: u32 = 2000;

/// Whether a claim is of the type, none of its bound variables is loose, and it is low enough.
pub fn claim_passes(
    records: &[Items<Ty>],
    scope: Scope<'_>,
    due: TypeView<'_>,
    claim: &Claim,
) -> bool
    ensures { result ≡ passes (records_of records.now) (scope_names scope.entry) (view_type due.entry) (claim_tree claim.now) }
{
    has_type(type_of(records, scope, claim), due) && is_within(claim, HEIGHT, 0)
}

/// The same of a claim in a proof, among the symbols of the blocks with these labels.
pub fn given_passes(records: &[Items<Ty>], vars: &[Ty], labels: &[u32], claim: &Claim) -> bool
    ensures { result ≡ given (records_of records.now) (map value_type vars.now) labels.now (claim_tree claim.now) }
{
    let scope = Scope {
        vars,
        labels: Some(labels),
    };
    claim_passes(records, scope, TypeView::Truth, claim)
}

/// Whether the number is one of the table of rules.
pub fn is_rule(number: u8) -> bool
    ensures { result ≡ forms.is_rule number }
{
    match rule_numbered(number) {
        Some(_) => true,
        None => false,
    }
}
