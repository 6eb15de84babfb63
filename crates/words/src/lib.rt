// Little-endian words of an image of bytes, and the words of a value's bytes.
#![tactic(auto)]

ghost use Rattle.std.specs.Prelude.{◌≡◌, ◌+◌, ◌*◌, ◌≤◌, ◌<◌, leb, length, get_or};
ghost use Rattle.spec.specs.Basics.{pick};
ghost use Rattle.spec.specs.Words.{word_at, words_of};
ghost use Rattle.words.specs.Store.{set_word};
ghost use Rattle.words.specs.Image.{Saved};

// The word w of bytes that have it: of an image, or of a value but for a last word with fewer than eight bytes.
pub fn read_word(img: &[u8], w: usize) -> u64
    requires { 8 * w + 8 ≤ length img.now }
    ensures { result ≡ word_at img.now w }
{
    let (words, _) = img.as_chunks::<8>();
    u64::from_le_bytes(words[w])
}

fn store_word(img: &mut [u8], w: usize, v: u64)
    requires { 8 * w + 8 ≤ length img.old }
    ensures { img.new ≡ set_word img.old w v }
{
    img[8 * w..8 * w + 8].copy_from_slice(&v.to_le_bytes());
}

// The word w of the image, 0 past its end.
#[tactic(auto, using(crate::specs::Image::words_read))]
pub fn load(img: &[u8], w: usize) -> u64
    ensures { result ≡ get_or (words_of img.now) w 0 }
{
    if w < img.len() / 8 {
        read_word(img, w)
    } else {
        0
    }
}

// The word w of an image that has the word behind it too, else 0: one comparison asks for both.
#[tactic(auto, using(crate::specs::Image::words_read))]
pub fn load_leading(img: &[u8], w: usize) -> u64
    ensures { result ≡ pick (leb (8 * (w + 2)) (length img.now)) (get_or (words_of img.now) w 0) 0 }
{
    if w < 0x1FFF_FFFF_FFFF_FFFE && 8 * (w + 2) <= img.len() {
        read_word(img, w)
    } else {
        0
    }
}

// The word w of the image set to v; past the end nothing changes.
pub fn save(img: &mut [u8], w: usize, v: u64)
    ensures { Saved img.old img.new w v }
{
    if w < img.len() / 8 {
        store_word(img, w, v);
    }
}

// What a value's last word is filled with.
const FILL: u64 = 0;

// The word i of a value that has fewer than eight bytes from there on, zero-filled. The last byte is taken first.
pub fn last_word(value: &[u8], i: usize) -> u64
    requires { (8 * i ≤ length value.now) × (length value.now < 8 * i + 8) }
    ensures { result ≡ word_at value.now i }
{
    value[8 * i..]
        .iter()
        .rev()
        .fold(FILL, |v, b| v << 8 | u64::from(*b))
}
