// The numbers of tested places, in a table from places to numbers.
ghost use Rattle.std.specs.Prelude.{◌≡◌, ◌≤◌, length, take};
ghost use Rattle.test_list.specs.views.Numbers.{number_all};

// Writes down the number of each listed place. Not the next number, nor a number for a place that is not listed.
pub fn number_places(places: &[u16; 64], count: usize, numbers: &mut [u8; 680])
    requires { (count ≤ 64) × (length places.now ≡ 64) × (length numbers.old ≡ 680) }
    ensures { numbers.new ≡ number_all (take count places.now) 0 numbers.old }
{
    for t in 0..count {
        let place = places[t] as usize;
        if place < 680 {
            numbers[place] = t as u8;
        }
    }
}
