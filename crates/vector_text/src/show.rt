// Printing on standard output. What is written no contract can say.
ghost use Rattle.std.specs.Prelude.{◌≡◌};

pub fn text(s: &[u8])
    ensures { result ≡ tt }
{
    io::write_all(1, s);
}

pub fn decimal(name: &[u8], value: u64)
    ensures { result ≡ tt }
{
    text(name);
    io::print_decimal(1, value);
}

pub fn hexadecimal(name: &[u8], value: u64, width: usize)
    ensures { result ≡ tt }
{
    text(name);
    io::print_hex(1, value, width);
}

pub fn octets(s: &[u8])
    ensures { result ≡ tt }
{
    for &b in s {
        io::print_hex(1, u64::from(b), 2);
    }
}
