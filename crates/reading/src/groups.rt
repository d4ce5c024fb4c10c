// The operations with the same leading codes, so that few rows are tried for a word.
ghost use Rattle.std.specs.Prelude.{◌≡◌, ◌<◌, map};
ghost use Rattle.reading.specs.Groups.{group_of, members, all_members, group_count};

use bits::fields::cut;

const COUNT: usize = 120;

// The places of each group's rows in the table of operations.
// Stay numbers: a row has no name of its own in the code but its place.
const GROUPS: [&[u8]; COUNT] = [
    // words of 16 bits, by quadrant (0, 1, 2) and funct3
    &[220],
    &[230],
    &[231],
    &[232],
    &[],
    &[227],
    &[228],
    &[229],
    &[211],
    &[213],
    &[215],
    &[217, 218],
    &[203, 204, 205, 206, 207, 208, 209, 221, 222, 223],
    &[210],
    &[],
    &[],
    &[212],
    &[214],
    &[216],
    &[219],
    &[198, 199, 200, 201, 202],
    &[224],
    &[225],
    &[226],
    // words of 32 bits, by the five bits of the opcode above the low two
    &[16, 17, 18, 19, 20, 21, 22],
    &[190, 191, 192, 193],
    &[],
    &[],
    &[10, 11, 12, 13, 14, 15],
    &[],
    &[],
    &[],
    &[23, 24, 25, 26],
    &[194, 195, 196, 197],
    &[],
    &[],
    &[0, 1, 2, 3, 4, 5, 6, 7, 8, 9],
    &[28],
    &[],
    &[],
    &[],
    &[],
    &[],
    &[],
    &[],
    &[],
    &[],
    &[],
    &[30, 31, 32, 33, 34, 35],
    &[27],
    &[],
    &[29],
    &[],
    &[],
    &[],
    &[],
    // vector arithmetic, by funct6
    &[36, 37, 38, 39, 165],
    &[146, 147],
    &[40, 41, 42, 43],
    &[44, 166],
    &[67, 68, 69, 90],
    &[70, 71],
    &[72, 73, 74, 91],
    &[75, 76],
    &[96, 97],
    &[61, 62, 98, 170],
    &[63, 64, 99, 171],
    &[65, 66, 172],
    &[100, 101, 178],
    &[],
    &[164, 189],
    &[77, 173],
    &[],
    &[],
    &[],
    &[],
    &[148, 149, 188],
    &[150, 151],
    &[],
    &[79, 80, 81, 82, 175],
    &[118, 119, 120, 121, 182],
    &[122, 123, 124, 125, 126, 183],
    &[127, 128, 129],
    &[130, 131, 132, 133],
    &[134, 135, 136, 137, 184],
    &[138, 139, 140, 141, 185],
    &[142, 143, 186],
    &[144, 145, 187],
    &[83, 84, 85, 86, 176],
    &[87, 88, 89, 177],
    &[92, 93],
    &[94, 95],
    &[49, 50, 51, 52],
    &[45, 46, 55, 56, 167],
    &[],
    &[47, 48, 53, 54, 78, 179],
    &[57, 58, 168],
    &[59, 60, 169],
    &[174],
    &[],
    &[156, 157],
    &[152, 153, 158, 159],
    &[160, 161, 181],
    &[154, 155, 162, 163, 180],
    &[102, 103],
    &[104, 105],
    &[106, 107],
    &[108, 109],
    &[110, 111],
    &[112, 113],
    &[114, 115],
    &[116, 117],
    &[],
    &[],
    &[],
    &[],
    &[],
    &[],
    &[],
    &[],
];

#[tactic(auto, unfolding(crate::specs::Groups::all_members, operations::specs::Manual::operations))]
fn groups() -> &'static [&'static [u8]]
    ensures { map (λ g. g.now) result.now ≡ all_members }
{
    &GROUPS
}

// The group of a word: of 16 bits by quadrant and funct3, of 32 by the opcode, of vector arithmetic by funct6.
// Stays a number: it is a place in the table of groups.
fn group_of(word: u32) -> usize
    ensures is { result ≡ group_of word }
    ensures within { result < group_count }
{
    let quadrant = cut(word, 0, 2);
    let opcode = cut(word, 2, 5);
    let group = match (quadrant, opcode) {
        (3, 21) => 56 + cut(word, 26, 6),
        (3, _) => 24 + opcode,
        _ => quadrant * 8 + cut(word, 13, 3),
    };
    group as usize
}

// The places of the operations that a word may be of.
#[tactic(auto, using(crate::proofs::Grouped::members_at, crate::proofs::Grouped::groups_length))]
pub fn candidates(word: u32) -> &'static [u8]
    ensures { result.now ≡ members (group_of word) }
{
    groups()[group_of(word)]
}
