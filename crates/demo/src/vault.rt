// A login as bits, and its public columns. Columns 0 to 7 are the secret, 8 says that it is saved, 9 is the checksum, 10 and 11 are the
// key edition, 12 to 15 the folder. Columns 16 to 22 help the rule on empty secrets: 16 to 19 say that two of the secret's bits are both
// 0, 20 and 21 that four are, 22 that all are.
use crate::rules;
use crate::said::refused;
use magnetar_field::gf128::Gf128;
use magnetar_field::{gf128, words};
use magnetar_hash::transcript;
use std::fmt;
use std::io::Result;

// A secret of 8 bits, whether it is saved, an edition of 2 bits and a folder of 4.
#[derive(Clone, Copy)]
pub(crate) struct Login {
    pub secret: u8,
    pub saved: bool,
    pub edition: u8,
    pub folder: u8,
}

// The four logins that the office has saved.
pub(crate) const LOGINS: [Login; 4] = [
    Login {
        secret: 0x4b,
        saved: true,
        edition: 2,
        folder: 5,
    },
    Login {
        secret: 0xa7,
        saved: true,
        edition: 3,
        folder: 5,
    },
    Login {
        secret: 0,
        saved: false,
        edition: 1,
        folder: 9,
    },
    Login {
        secret: 0x80,
        saved: true,
        edition: 1,
        folder: 9,
    },
];

// The bits of the secret that the columns 16 to 22 say are all 0.
const NONE_OF: [u8; 7] = [0x03, 0x0c, 0x30, 0xc0, 0x0f, 0xf0, 0xff];

impl Login {
    fn checksum(self) -> u32 {
        self.secret.count_ones() % 2
    }

    // The columns 16 to 22, as bits 0 to 6.
    fn helpers(self) -> u64 {
        let mut bits = 0;
        for (i, mask) in NONE_OF.iter().enumerate() {
            if self.secret & *mask == 0 {
                bits |= 1 << i;
            }
        }
        bits
    }

    // Its 32 bits.
    pub(crate) fn word(self) -> u64 {
        u64::from(self.secret)
            | (u64::from(self.saved) << 8)
            | (u64::from(self.checksum()) << 9)
            | (u64::from(self.edition) << 10)
            | (u64::from(self.folder) << 12)
            | (self.helpers() << 16)
    }
}

impl fmt::Display for Login {
    fn fmt<W: fmt::Write>(&self, f: &mut fmt::Formatter<W>) -> fmt::Result {
        let secret = self.secret;
        let saved = u8::from(self.saved);
        let checksum = self.checksum();
        let edition = self.edition;
        let folder = self.folder;
        let word = self.word();
        write!(
            f,
            "0x{secret:02x}         {saved}          {checksum}         {edition}        {folder}   0x{word:08x}"
        )
    }
}

// A batch as it is lent: two packed words for each login, whose 32 bits are in the first, and the public words, login after login.
#[derive(Clone, Copy)]
pub(crate) struct Batch {
    pub packed: [u64; 8],
    pub x: [u64; rules::PUBLIC],
}

impl Batch {
    pub(crate) fn of(logins: &[Login; 4]) -> Batch {
        let mut batch = Batch {
            packed: [0; 8],
            x: [0; rules::PUBLIC],
        };
        for (u, login) in logins.iter().enumerate() {
            batch.packed[2 * u] = login.word();
            batch.publish(u, *login);
        }
        batch
    }

    // The packed words.
    pub(crate) fn packed(&self) -> &[u64] {
        &self.packed
    }

    // The public words.
    pub(crate) fn public(&self) -> &[u64] {
        &self.x
    }

    // Sets the public columns of login u, which has 31: the folder, the edition, and zeros.
    pub(crate) fn publish(&mut self, u: usize, login: Login) {
        if u < 4 {
            words::put(&mut self.x, 31 * u, small(login.folder));
            words::put(&mut self.x, 31 * u + 1, small(login.edition));
        }
    }

    // The commitment to the bits. A hash of the packed words stands in for it: a commitment scheme is not part of this repository.
    pub(crate) fn commitment(&self) -> Result<[u8; 32]> {
        let t = transcript::new(b"vault bits", b"", &[]).map_err(refused)?;
        let t = transcript::absorb_field(t, b"bits", &self.packed).map_err(refused)?;
        Ok(transcript::state_digest(t))
    }

    // The same with edition 3 for login 0, and with the third of its public columns such that their value at r_low stays as it was: so the
    // proof that these claims are of still fits. The elements 2 and 3 of the public half weigh (1 + r0) r1 and r0 r1 times the same.
    pub(crate) fn exchanged(&self, claims: &[u64]) -> Batch {
        let edition = small(3);
        let r0 = words::get(claims, 2);
        let change = gf128::add(edition, words::get(&self.x, 1));
        let by = gf128::mul(change, gf128::add(gf128::ONE, r0));
        let mut other = *self;
        words::put(&mut other.x, 1, edition);
        words::put(&mut other.x, 2, gf128::mul(by, gf128::inv(r0)));
        other
    }
}

fn small(n: u8) -> Gf128 {
    Gf128 {
        lo: u64::from(n),
        hi: 0,
    }
}
