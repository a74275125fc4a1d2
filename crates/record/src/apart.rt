// The first record of some bytes, taken apart.
ghost use Rattle.record.specs.Family.{TakesApart};

use crate::kind::Kind;

// Why no record stands at the front of the bytes: there are none, nobody knows the first, or they end too early.
#[derive(Clone, Copy)]
pub(crate) enum Lack {
    End,
    Unknown,
    Cut,
}

// The kind of the first record, its body, and the bytes behind it.
pub(crate) fn take_apart<K: Kind>(bytes: &[u8]) -> Result<(K, &[u8], &[u8]), Lack>
    ensures { TakesApart K.number_of K.kinds K.layout bytes.now result }
{
    let [first, behind @ ..] = bytes else {
        return Err(Lack::End);
    };
    let kind = K::of_number(*first).ok_or(Lack::Unknown)?;
    let (body, rest) = behind.split_at_checked(kind.length()).ok_or(Lack::Cut)?;
    Ok((kind, body, rest))
}
