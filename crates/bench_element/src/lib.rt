// What a program in Rust or C links to store into, read from and clear an element of lent memory: the calls of `element` under C's names.
#![tactic(auto)]

ghost use Rattle.std.specs.Prelude.{◌≡◌};
ghost use Rattle.element.specs.Element.{stored_of, read_of, cleared_of};

#[unsafe(no_mangle)]
pub extern "C" fn element_store(mem: &mut [u8], at: usize, bytes: &[u8])
    ensures { mem.new ≡ stored_of mem.old at bytes.now }
{
    element::store(mem, at, bytes);
}

#[unsafe(no_mangle)]
pub extern "C" fn element_read(
    mem: &[u8],
    base: usize,
    size: usize,
    offset: usize,
    count: usize,
    out: &mut [u8],
)
    ensures { out.new ≡ read_of mem.now base size offset count out.old }
{
    element::read(mem, base, size, offset, count, out);
}

#[unsafe(no_mangle)]
pub extern "C" fn element_clear(mem: &mut [u8], base: usize, size: usize)
    ensures { mem.new ≡ cleared_of mem.old base size }
{
    element::clear(mem, base, size);
}
