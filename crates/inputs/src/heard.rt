// A B-CNAV1 subframe 2 heard from a BeiDou satellite, joined into the broadcast list (02, CR 6).
ghost use Rattle.std.specs.Prelude.{◌≡◌};
ghost use Rattle.inputs.specs.Heard.{heard_refusal, heard};

use verdict::number_of;

// A subframe is read and its IODC joined at the slot of the PRN: the number of the refusal, 0 where it is joined. On a refusal the list is as it was.
pub fn hear(issues: &mut [u16], prn: u8, s: &[u8]) -> u8
    ensures refusal { result ≡ heard_refusal issues.old prn s.now }
    ensures entries { issues.new ≡ heard issues.old prn s.now }
{
    if let Err(r) = subframe2::read(s) {
        return number_of(Err(r));
    }
    number_of(joining::join(issues, prn as u16, bits::get16(s, 21, 10)))
}
