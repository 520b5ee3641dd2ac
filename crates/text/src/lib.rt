// Lines of text on a page that is lent: fields of decimal numbers, the byte after each, and the line of a refusal.
//
// Each method asks that there is room for what it writes, and writes that where the page stands (specs/Page). So they are for our own
// crates, which know how long a text can be. specs/Text says what the text is.

#![tactic(auto)]

mod numbers;

ghost use Rattle.std.specs.Prelude.{[], ◌∷◌, ◌++◌, ◌≡◌, ◌<◌, ◌≤◌, length, drop, nat_abs};
ghost use Rattle.text.specs.Text.{max_size, decimal as Text·decimal, signed as Text·signed, pair_text, refusal_text};
ghost use Rattle.text.specs.Page.{HasRoom, SamePage, Writes};

// A page that is lent, and the index where the next byte goes.
#[derive(Drop)]
pub struct Page<'a> {
    pub bytes: &'a mut [u8],
    pub at: usize,
}

impl Page<'_> {
    // Writes one byte.
    #[tactic(auto, using(crate::proofs::Writing::wrote_byte))]
    fn put(&mut self, b: u8)
        requires { HasRoom self.old (b ∷ []) }
        ensures wrote { Writes self.old (b ∷ []) self.new }
        ensures lent { SamePage self.old self.new }
    {
        self.bytes[self.at] = b;
        self.at += 1;
    }

    // Writes some bytes.
    #[tactic(auto, unfolding(crate::specs::Page::overlaid))]
    fn put_all(&mut self, s: &[u8])
        requires { HasRoom self.old s.now }
        ensures wrote { Writes self.old s.now self.new }
        ensures lent { SamePage self.old self.new }
    {
        let end = self.at + s.len();
        self.bytes[self.at..end].copy_from_slice(s);
        self.at = end;
    }

    // Writes v and the byte after it: a space, or the line's end.
    pub fn field(&mut self, v: u32, after: u8)
        requires { HasRoom self.old (Text·decimal v ++ (after ∷ [])) }
        ensures wrote { Writes self.old (Text·decimal v ++ (after ∷ [])) self.new }
        ensures lent { SamePage self.old self.new }
    {
        self.decimal(u64::from(v));
        self.put(after);
    }

    // The same for an integer.
    pub fn signed_field(&mut self, v: i64, after: u8)
        requires { (nat_abs v < max_size) × HasRoom self.old (Text·signed v ++ (after ∷ [])) }
        ensures wrote { Writes self.old (Text·signed v ++ (after ∷ [])) self.new }
        ensures lent { SamePage self.old self.new }
    {
        self.signed(v);
        self.put(after);
    }

    // Writes two numbers with a space between them, and the byte after them.
    pub fn pair(&mut self, v: u32, w: u32, after: u8)
        requires { HasRoom self.old (pair_text v w after) }
        ensures wrote { Writes self.old (pair_text v w after) self.new }
        ensures lent { SamePage self.old self.new }
    {
        self.field(v, b' ');
        self.field(w, after);
    }

    // Writes a refusal's line.
    pub fn refusal(&mut self, number: u32, place: u32)
        requires { HasRoom self.old (refusal_text number place) }
        ensures wrote { Writes self.old (refusal_text number place) self.new }
        ensures lent { SamePage self.old self.new }
    {
        self.put_all(b"refused ");
        self.pair(number, place, b'\n');
    }
}

// Copies s over the start of `to`, and answers how many bytes that are.
pub fn copy(s: &[u8], to: &mut [u8]) -> usize
    requires { length s.now ≤ length to.old }
    ensures counts { result ≡ length s.now }
    ensures copied { to.new ≡ s.now ++ drop (length s.now) to.old }
{
    to[..s.len()].copy_from_slice(s);
    s.len()
}
