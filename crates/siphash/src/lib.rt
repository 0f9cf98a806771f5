#![tactic(auto)]

ghost use Rattle.std.specs.Prelude.{◌≡◌, ℕ, ◌<◌, List, length, fold};
ghost use Rattle.siphash.specs.Sip.{sip_round, initial, compress, finalize, little_endian, last_word, sip_hash, word_bytes};

// The two words of a key.
#[derive(Clone, Copy)]
pub struct Key {
    pub k0: u64,
    pub k1: u64,
}

// The four 64-bit lanes of SipHash's inner state.
#[derive(Clone, Copy)]
struct Lanes {
    v0: u64,
    v1: u64,
    v2: u64,
    v3: u64,
}

impl Lanes {
    // Initialization: the lanes of a key.
    #[tactic(auto, unfolding(crate::specs::Sip::initial))]
    fn new(key: Key) -> Lanes
        ensures { result ≡ initial key.k0 key.k1 }
    {
        Lanes {
            v0: key.k0 ^ 0x736f_6d65_7073_6575,
            v1: key.k1 ^ 0x646f_7261_6e64_6f6d,
            v2: key.k0 ^ 0x6c79_6765_6e65_7261,
            v3: key.k1 ^ 0x7465_6462_7974_6573,
        }
    }

    // One sip round.
    #[tactic(auto, unfolding(crate::specs::Sip::sip_round))]
    fn sip_round(&mut self)
        ensures { self.new ≡ sip_round self.old }
    {
        self.v0 = self.v0.wrapping_add(self.v1);
        self.v1 = self.v1.rotate_left(13) ^ self.v0;
        self.v0 = self.v0.rotate_left(32);
        self.v2 = self.v2.wrapping_add(self.v3);
        self.v3 = self.v3.rotate_left(16) ^ self.v2;
        self.v0 = self.v0.wrapping_add(self.v3);
        self.v3 = self.v3.rotate_left(21) ^ self.v0;
        self.v2 = self.v2.wrapping_add(self.v1);
        self.v1 = self.v1.rotate_left(17) ^ self.v2;
        self.v2 = self.v2.rotate_left(32);
    }

    // Compression of one message word.
    #[tactic(auto, unfolding(crate::specs::Sip::compress))]
    fn compress(mut self, word: u64) -> Lanes
        ensures { result ≡ compress self word }
    {
        self.v3 ^= word;
        self.sip_round();
        self.sip_round();
        self.v0 ^= word;
        self
    }

    // Compression of message words, in order.
    fn compress_all(self, words: &[u64]) -> Lanes
        ensures { result ≡ fold compress self words.now }
    {
        words.iter().copied().fold(self, Lanes::compress)
    }

    // Finalization: the hash, once the last message word is taken in.
    #[tactic(auto, unfolding(crate::specs::Sip::finalize))]
    fn finalize(mut self) -> u64
        ensures { result ≡ finalize self }
    {
        self.v2 ^= 0xff;
        self.sip_round();
        self.sip_round();
        self.sip_round();
        self.sip_round();
        self.v0 ^ self.v1 ^ self.v2 ^ self.v3
    }
}

// The number of eight bytes, least byte first.
#[tactic(auto, using(crate::proofs::Words::eight_bytes))]
fn number(bytes: &[u8; 8]) -> u64
    ensures { result ≡ little_endian bytes.now }
{
    u64::from_le_bytes(*bytes)
}

// The last message word of `len` bytes, of which `rest` are left over.
#[tactic(auto, using(crate::proofs::Words::padded), unfolding(crate::specs::Sip::last_word))]
fn last_word(rest: &[u8], len: usize) -> u64
    requires { length rest.now < 8 }
    ensures { result ≡ last_word rest.now len }
{
    let mut last = [0u8; 8];
    last[..rest.len()].copy_from_slice(rest);
    last[7] = (len % 256) as u8;
    number(&last)
}

// SipHash-2-4 of any bytes.
pub fn hash_bytes(key: Key, bytes: &[u8]) -> u64
    ensures { result ≡ sip_hash key.k0 key.k1 bytes.now }
{
    let (words, rest) = bytes.as_chunks::<8>();
    words
        .iter()
        .map(number)
        .fold(Lanes::new(key), Lanes::compress)
        .compress(last_word(rest, bytes.len()))
        .finalize()
}

// SipHash-2-4 of the bytes of 64-bit words, each least byte first.
#[tactic(auto, using(crate::proofs::Words::hash_of_words))]
pub fn hash_words(key: Key, words: &[u64]) -> u64
    ensures { result ≡ sip_hash key.k0 key.k1 (word_bytes words.now) }
{
    Lanes::new(key)
        .compress_all(words)
        .compress(last_word(&[], 8 * words.len()))
        .finalize()
}
