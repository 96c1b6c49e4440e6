// The export that prints a duration.
ghost use Rattle.saltribbon.specs.Said.{options_of, Said};

#[unsafe(no_mangle)]
pub extern "C" fn salt_fmt(
    secs: u64,
    nanos: u32,
    plus: i64,
    precision: i64,
    width: i64,
    align: i64,
    fill: i64,
    out: &mut [u8],
) -> i64
    ensures { Said out.old out.new (record { secs = secs; nanos = nanos }) (options_of plus precision width align fill) result }
{
    saltribbon::printed::salt_fmt(secs, nanos, plus, precision, width, align, fill, out)
}
