// How many rounds of each kind a run has, and where its draws, its proof's elements and its events stand, and how many words they are.
ghost use Rattle.std.specs.Prelude.{◌≡◌, ◌+◌, ◌-◌, ◌*◌};
ghost use Rattle.magnetar_protocol.specs.Shape.{proof_total};
ghost use Rattle.magnetar_protocol.specs.Draws.{draw_total};
ghost use Rattle.magnetar_protocol.specs.Rounds.{rounds_of, Few};

use magnetar_field::sizes;

// The rounds of a run: the logarithms to the base 2 of its logins, its rows of bin and of fld, and its columns.
#[derive(Clone, Copy, Debug, PartialEq, Eq)]
pub struct Rounds {
    pub shared: u8,
    pub bin: u8,
    pub fld: u8,
    pub inner: u8,
}

impl Rounds {
    // Those of a run over q logins with m columns, rb rows of bin and rf rows of fld.
    pub fn of(m: usize, q: usize, rb: usize, rf: usize) -> Rounds
        ensures rounds { result ≡ rounds_of m q rb rf }
        ensures few { Few result }
    {
        Rounds {
            shared: sizes::log2(q) as u8,
            bin: sizes::log2(rb) as u8,
            fld: sizes::log2(rf) as u8,
            inner: sizes::log2(m) as u8,
        }
    }

    // How many draws, and so many events, come before the shared rounds: both taus.
    pub fn taus(self) -> usize
        ensures { result ≡ self.shared + self.bin + (self.shared + self.fld) }
    {
        self.shared as usize + self.bin as usize + (self.shared as usize + self.fld as usize)
    }

    // The place of the alphas among the draws.
    pub fn alphas(self) -> usize
        ensures { result ≡ self.shared + self.bin + (self.shared + self.fld) + self.shared + self.bin + self.fld }
    {
        self.taus() + self.shared as usize + self.bin as usize + self.fld as usize
    }

    // The place of the terminals in the proof.
    pub fn terminals(self) -> usize
        ensures { result ≡ 8 * self.shared + 4 * self.bin + 4 * self.fld }
    {
        8 * self.shared as usize + 4 * self.bin as usize + 4 * self.fld as usize
    }

    // The place of v_z in the proof, behind the six terminals and the inner rounds.
    pub fn end(self) -> usize
        ensures { result ≡ 8 * self.shared + 4 * self.bin + 4 * self.fld + 6 + 3 * self.inner }
    {
        self.terminals() + 6 + 3 * self.inner as usize
    }

    // How many events come before the terminals.
    pub fn outer_events(self) -> usize
        ensures { result ≡ self.shared + self.bin + (self.shared + self.fld) + 2 * self.shared + 2 * self.bin + 2 * self.fld }
    {
        self.taus() + 2 * self.shared as usize + 2 * self.bin as usize + 2 * self.fld as usize
    }

    // How many words the draws are.
    pub fn draw_words(self) -> usize
        ensures { result ≡ 2 * draw_total self.shared self.bin self.fld self.inner }
    {
        2 * (self.alphas() + 6 + self.inner as usize)
    }

    // How many words a proof with l segments is.
    pub fn proof_words(self, l: u8) -> usize
        ensures { result ≡ 2 * proof_total self.shared self.bin self.fld self.inner l }
    {
        2 * (self.end() + 1 + l as usize)
    }

    // How many words the claims are.
    pub fn claim_words(self, l: u8) -> usize
        ensures { result ≡ 2 * (self.shared + (self.inner - 1) + l) }
    {
        2 * (self.shared as usize + (self.inner as usize).saturating_sub(1) + l as usize)
    }
}
