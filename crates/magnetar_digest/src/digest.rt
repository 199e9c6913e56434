// The digest of a relation as it is lent.
ghost use Rattle.std.specs.Prelude.{◌≡◌};
ghost use Rattle.magnetar_field.specs.Number.{number_of};
ghost use Rattle.magnetar_hash.specs.Parts.{hash_answer_of};
ghost use Rattle.magnetar_layout.specs.Tests.{first_refusal, size_tests};
ghost use Rattle.magnetar_matrix.specs.Numbers.{entries_by};
ghost use Rattle.magnetar_relation.specs.Rules.{rules_by};
ghost use Rattle.magnetar_digest.specs.Digest.{entry_numbers, digest_refusal, digest_answer};
ghost use Rattle.magnetar_digest.specs.Feeding.{each_fed};

use crate::steps;
use magnetar_field::refusal::{Refusal, require};
use magnetar_hash::hasher;
use magnetar_hash::hasher::Sponge;
use magnetar_layout::limits::{MOST_COLUMNS, MOST_LOGINS};
use magnetar_layout::{layout, tests};
use magnetar_matrix::entries::Entries;
use magnetar_relation::rules;
use magnetar_relation::shapes::Shapes;

// 1: the columns and the logins.
#[tactic(auto, using(magnetar_layout::proofs::Passing::passing), unfolding(magnetar_layout::specs::Tests::or_refuse))]
fn sizes(m: usize, q: usize) -> Result<(), Refusal>
    ensures { number_of result ≡ first_refusal 0 (size_tests m q) }
{
    require(tests::is_size(2, MOST_COLUMNS, m), Refusal::Size)?;
    require(tests::is_size(1, MOST_LOGINS, q), Refusal::Size)
}

// 1, 4 to 10.
fn check<E: Entries>(m: usize, q: usize, lens: &[usize], sh: Shapes, es: &E) -> Result<(), Refusal>
    ensures { number_of result ≡ digest_refusal (rules_by m q lens.now sh (E.numbers es.now)) }
{
    sizes(m, q)?;
    rules::check(m, q, sh, es)?;
    layout::refusal(m / 2, lens)
}

// The entries are fed.
fn feed_entries<E: Entries>(s: Sponge, es: &E) -> Sponge
    ensures { result ≡ each_fed entry_numbers (entries_by (E.numbers es.now)) s }
{
    let mut acc = s;
    for i in 0..es.len() {
        acc = steps::feed_entry(acc, es.at(i));
    }
    acc
}

// The digest of the relation. Refuses 1, 4 to 10.
#[tactic(auto, using(crate::proofs::Ends::ends))]
pub fn relation_digest<E: Entries>(
    m: usize,
    q: usize,
    lens: &[usize],
    sh: Shapes,
    es: &E,
) -> Result<[u8; 32], Refusal>
    ensures { hash_answer_of result ≡ digest_answer (rules_by m q lens.now sh (E.numbers es.now)) }
{
    check(m, q, lens, sh, es)?;
    let s = steps::head(m, q, lens, sh, es.len());
    Ok(hasher::finish(feed_entries(s, es)))
}
