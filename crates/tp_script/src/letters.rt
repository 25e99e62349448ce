//! The letters of sides.
ghost use Rattle.std.specs.Prelude.{◌≡◌};
ghost use Rattle.tp_script.specs.EventReaders.{face_of};
ghost use Rattle.tp_script.specs.Script.{face_byte};

use tp_machine::Face;

/// The side that the letter stands for: `F` or `B`.
pub fn read_face(byte: u8) -> Option<Face>
    ensures { result ≡ face_of byte }
{
    match byte {
        b'F' => Some(Face::Front),
        b'B' => Some(Face::Back),
        _ => None,
    }
}

/// The letter of a side: `F` or `B`.
pub fn face_letter(face: Face) -> u8
    ensures { result ≡ face_byte face }
{
    match face {
        Face::Front => b'F',
        Face::Back => b'B',
    }
}
