// The sponge of SHA3-256 as it is run.
ghost use Rattle.std.specs.Prelude.{◌≡◌, ◌+◌, ◌-◌, ◌*◌, ◌%◌, ◌^◌, ◌<◌, ◌≤◌};
ghost use Rattle.magnetar_hash.specs.Bytes.{le_bytes, word_bytes};
ghost use Rattle.magnetar_hash.specs.Sha3.{rate, padding, squeezed};
ghost use Rattle.magnetar_hash.specs.Sponge.{Ready, Takes, empty, fed, finished};

use crate::hasher::Sponge;
use magnetar_keccak::keccak;

impl Sponge {
    // The sponge that has taken in nothing.
    pub(crate) fn empty() -> Sponge
        ensures { result ≡ empty }
    {
        Sponge {
            lanes: [0u64; 25],
            fill: 0,
        }
    }

    // n bytes that lie in one lane are taken in: w is the number that they make.
    fn feed_lane(&mut self, w: u64, n: usize)
        requires { Ready self.old × (0 < n) × (self.old.fill % 8 + n ≤ 8) × (w < 2 ^ (8 * n)) }
        ensures { Takes self.old (le_bytes n w) self.new }
    {
        self.lanes[self.fill / 8] ^= w << (8 * (self.fill % 8));
        self.fill += n;
        if 136 <= self.fill {
            let lanes = keccak::permute(self.lanes);
            self.lanes = lanes;
            self.fill = 0;
        }
    }

    // The 8 bytes of a word are taken in: those that fit go into the lane, the others into the next one.
    pub(crate) fn feed_word(&mut self, w: u64)
        requires { Ready self.old }
        ensures { Takes self.old (le_bytes 8 w) self.new }
    {
        let o = self.fill % 8;
        if o == 0 {
            self.feed_lane(w, 8);
        } else {
            let up = 8 * o;
            self.feed_lane((w << up) >> up, 8 - o);
            self.feed_lane(w >> (64 - up), o);
        }
    }

    // Bytes are taken in, eight at a time.
    pub(crate) fn feed(&mut self, b: &[u8])
        requires { Ready self.old }
        ensures { Takes self.old b.now self.new }
    {
        let (words, rest) = b.as_chunks::<8>();
        for w in words {
            self.feed_word(u64::from_le_bytes(*w));
        }
        for x in rest {
            self.feed_lane(*x as u64, 1);
        }
    }

    // The bytes of words are taken in.
    pub(crate) fn feed_words(&mut self, words: &[u64])
        requires { Ready self.old }
        ensures { Takes self.old (word_bytes words.now) self.new }
    {
        for w in words {
            self.feed_word(*w);
        }
    }

    // The first 32 bytes of the state.
    fn squeeze(&self) -> [u8; 32]
        ensures { result ≡ squeezed self.now.lanes }
    {
        let mut out = [0u8; 32];
        for j in 0..32 {
            out[j] = self.lanes[j / 8].to_le_bytes()[j % 8];
        }
        out
    }

    // The padding is taken in. Between its first byte and its last there are only zeros, which change nothing.
    fn pad(&mut self)
        requires { Ready self.old }
        ensures { self.new.lanes ≡ (fed self.old (padding (rate - self.old.fill))).lanes }
    {
        if self.fill == 135 {
            self.feed_lane(0x86, 1);
        } else {
            self.feed_lane(0x06, 1);
            self.fill = 135;
            self.feed_lane(0x80, 1);
        }
    }

    // The padding is taken in, and the hash put out.
    pub(crate) fn finish(&mut self) -> [u8; 32]
        requires { Ready self.old }
        ensures { result ≡ finished self.old }
    {
        self.pad();
        self.squeeze()
    }
}
