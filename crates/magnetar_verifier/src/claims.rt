// The claims that an accepted run leaves: r_inst, r_low, and the segment values.
ghost use Rattle.std.specs.Prelude.{◌≡◌, ◌++◌, reverse, ◌+◌, ◌-◌, ◌*◌, ◌%◌, ◌≤◌, length};
ghost use Rattle.magnetar_field.specs.Number.{number_of};
ghost use Rattle.magnetar_field.specs.Words.{elements};
ghost use Rattle.magnetar_protocol.specs.Proof.{part};
ghost use Rattle.magnetar_protocol.specs.Rounds.{Few};
ghost use Rattle.magnetar_verifier.specs.Claims.{claims_refusal, claims_out};

use crate::found::piece;
use magnetar_field::refusal::{Refusal, require};
use magnetar_field::words;
use magnetar_protocol::refusal;
use magnetar_protocol::rounds::Rounds;

// Writes the elements of s, the last one first.
fn reversed(out: &mut [u64], s: &[u64])
    requires { (length out.old ≡ length s.now) × (length s.now % 2 ≡ 0) }
    ensures { elements out.new ≡ reverse (elements s.now) }
{
    let n = s.len() / 2;
    for i in 0..n {
        words::put(out, i, words::get(s, n - 1 - i));
    }
}

// Writes all claims, with l segment values.
fn write_in(out: &mut [u64], proof: &[u64], draws: &[u64], r: Rounds, l: usize)
    requires few { Few r }
    requires room { length out.old ≡ 2 * (r.shared + (r.inner - 1) + l) }
    requires sent { 2 * (8 * r.shared + 4 * r.bin + 4 * r.fld + 6 + 3 * r.inner + 1 + l) ≤ length proof.now }
    requires drawn { 2 * (r.shared + r.bin + (r.shared + r.fld) + r.shared + r.bin + r.fld + 6 + r.inner) ≤ length draws.now }
    ensures { let s = r.shared in let b = r.bin in let f = r.fld in let c = r.inner in elements out.new ≡ reverse (part (s + b + (s + f)) s (elements draws.now)) ++ (part (s + b + (s + f) + s + b + f + 6) (c - 1) (elements draws.now) ++ part (8 * s + 4 * b + 4 * f + 6 + 3 * c + 1) l (elements proof.now)) }
{
    let n = (r.inner as usize).saturating_sub(1);
    let a = 2 * r.shared as usize;
    let e = a + 2 * n;
    reversed(&mut out[..a], piece(draws, r.taus(), r.shared as usize));
    words::copy(piece(draws, r.alphas() + 6, n), &mut out[a..e]);
    words::copy(piece(proof, r.end() + 1, l), &mut out[e..]);
}

// Writes the claims of a run over q logins with m columns, rb rows of bin and rf rows of fld, and these segment lengths, as words at the
// front of claims: r_inst, the shared challenges reversed; r_low, the inner challenges but the last; the segment values.
// 1: no such columns or logins; 4: no such rows; 8, 9, 10: no such layout over m / 2 columns; 11: not the words of as many draws as a run
// makes; 15: too little room; 16: not the words of a proof. The sizes stay numbers: none that is refused has a Rounds.
pub fn write_claims(
    m: usize,
    q: usize,
    rb: usize,
    rf: usize,
    lens: &[usize],
    proof: &[u64],
    draws: &[u64],
    claims: &mut [u64],
) -> Result<(), Refusal>
    ensures refusal { number_of result ≡ claims_refusal m q rb rf lens.now proof.now draws.now claims.old }
    ensures written { claims.new ≡ claims_out m q rb rf lens.now proof.now draws.now claims.old }
{
    refusal::outline_refusal(m, q, rb, rf, lens)?;
    let r = Rounds::of(m, q, rb, rf);
    let l = lens.len() as u8;
    let need = r.claim_words(l);
    require(draws.len() == r.draw_words(), Refusal::Length)?;
    require(need <= claims.len(), Refusal::Room)?;
    require(proof.len() == r.proof_words(l), Refusal::ProofWords)?;
    write_in(&mut claims[..need], proof, draws, r, lens.len());
    Ok(())
}
