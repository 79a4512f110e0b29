//! Laws of the layouts: each function does nothing, and its contract is the law.

ghost use Rattle.route_layouts.specs.Layouts.{WrittenIsRead};
ghost use Rattle.route_layouts.specs.Conversion.{ConvertedIsRead, ConvertedTwice, CounterpartIsComputed, PlainIsSettled, ThereAndBack};

/// What is written of a header is read again, as far as it has room for it.
pub fn written_is_read()
    ensures { WrittenIsRead }
{}

/// A converted message has each number in its place, as the message had it that it was made of, and its addresses
/// behind the header.
pub fn converted_is_read()
    ensures { ConvertedIsRead }
{}

/// A message that was converted is one in its layout, and goes back as it was, but for what the layout has no place
/// for.
pub fn there_and_back()
    ensures { ThereAndBack }
{}

/// Of the addresses that go there and back those are as they were that neither layout cuts or gives more bytes.
pub fn plain_is_settled()
    ensures { PlainIsSettled }
{}

/// To convert a converted message to its own layout changes nothing.
pub fn converted_twice()
    ensures { ConvertedTwice }
{}

/// What is converted or refused is what the definition of a message's counterpart computes.
pub fn counterpart_is_computed()
    ensures { CounterpartIsComputed }
{}
