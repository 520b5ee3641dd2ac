// Numbers and integers written on a page, as decimal digits.
ghost use Rattle.std.specs.Prelude.{◌≡◌, ◌<◌, nat_abs};
ghost use Rattle.text.specs.Text.{max_size, decimal as Text·decimal, signed as Text·signed};
ghost use Rattle.text.specs.Page.{HasRoom, SamePage, Writes};

use super::Page;

impl Page<'_> {
    // Writes the digits of v. No plainer by `write!`: that answers a `fmt::Result`, and this cannot fail.
    pub(crate) fn decimal(&mut self, v: u64)
        requires { HasRoom self.old (Text·decimal v) }
        ensures wrote { Writes self.old (Text·decimal v) self.new }
        ensures lent { SamePage self.old self.new }
    {
        let last = b'0' + (v % 10) as u8;
        if v < 10 {
            self.put(last);
        } else {
            self.decimal(v / 10);
            self.put(last);
        }
    }

    // Writes v, with its sign where it is below 0.
    pub(crate) fn signed(&mut self, v: i64)
        requires { (nat_abs v < max_size) × HasRoom self.old (Text·signed v) }
        ensures wrote { Writes self.old (Text·signed v) self.new }
        ensures lent { SamePage self.old self.new }
    {
        let size = v.unsigned_abs();
        if v < 0 {
            self.put(b'-');
            self.decimal(size);
        } else {
            self.decimal(size);
        }
    }
}
