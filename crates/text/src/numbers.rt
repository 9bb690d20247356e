// Numbers in decimal.
ghost use Rattle.text.specs.Text.{Writes};
ghost use Rattle.text.specs.Spelled.{decimal, signed};

use super::bytes::Text;
use itoa::Buffer;

impl<'a> Text<'a> {
    pub fn number(&mut self, n: u64)
        ensures { Writes self.old (decimal n) self.new }
    {
        self.copy(Buffer::new().format(n).as_bytes());
    }

    pub fn value(&mut self, x: i64)
        ensures { Writes self.old (signed x) self.new }
    {
        self.copy(Buffer::new().format(x).as_bytes());
    }
}
