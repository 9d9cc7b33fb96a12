// What the switching network sends out (document 02, L7).
#![tactic(auto)]

ghost use Rattle.std.specs.Prelude.{◌≡◌, map, length, ◌+◌, ◌*◌, ◌^◌, ◌≤◌, ◌<◌};
ghost use Rattle.bits.specs.Bits.{from, bit_at};
ghost use Rattle.network.specs.Network.{exchange, network};

// Where position x of a layer takes its value from, for switches that join positions 2^k apart; base is the layer's first bit.
fn source(x: u16, k: usize, row: &[u8], base: usize) -> u16
    requires { (k < 16) × (base < 2 ^ 32) }
    ensures { result ≡ exchange (2 ^ k) (λ j. bit_at row.now (base + j)) x }
{
    let y = x as usize;
    let low = y & ((1usize << k) - 1);
    let e = bits::bit_at(row, base + (((y >> (k + 1)) << k) + low));
    x ^ ((e as u16) << k)
}

// Where each position of the list takes its value from.
fn layer(k: usize, row: &[u8], base: usize, places: &mut [u16])
    requires { (k < 16) × (base < 2 ^ 32) }
    ensures { places.new ≡ map (exchange (2 ^ k) (λ j. bit_at row.now (base + j))) places.old }
{
    let mut i = 0;
    while i < places.len() {
        places[i] = source(places[i], k, row, base);
        i += 1;
    }
}

// The positions in order.
fn positions(places: &mut [u16])
    requires { length places.old ≤ 65536 }
    ensures { places.new ≡ from 0 (length places.old) }
{
    let mut i = 0;
    while i < places.len() {
        places[i] = i as u16;
        i += 1;
    }
}

// What the network on 2^(m+1) values sends out at the first positions, with the settings of the packed row. The layers from the
// last to the first say where a position's value comes from.
pub fn send(m: usize, row: &[u8], places: &mut [u16])
    requires { (m < 16) × (length places.old ≤ 65536) }
    ensures { places.new ≡ map (network m (λ l j. bit_at row.now (l * 2 ^ m + j))) (from 0 (length places.old)) }
{
    positions(places);
    let mut l = 2 * m + 1;
    while 0 < l {
        l -= 1;
        let back = 2 * m - l;
        layer(bits::smaller(l, back), row, l << m, places);
    }
}
