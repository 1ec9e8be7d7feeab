// What a script can ask: the calls with their arguments, and why a refusal's number is given.
#![tactic(auto)]

ghost use Rattle.std.specs.Prelude.{◌≡◌, [], get_or};
ghost use Rattle.lines.specs.Lines.{Appends};
ghost use Rattle.guide.specs.Text.{lines_of};
ghost use Rattle.guide.specs.Guide.{help, why_of};

use lines::Buffer;
use script::line_at;

// Line n of a text, from 0 on; empty where there is none.
fn nth_line(s: &[u8], n: u32) -> &[u8]
    ensures { result.now ≡ get_or (lines_of s.now) n [] }
{
    let mut at = 0;
    for _ in 0..n {
        at += line_at(s, at).len() + 1;
    }
    line_at(s, at)
}

// The place of the last reason, which any number has that is no refusal's.
const LAST_REASON: u32 = 25;

// Adds a line for each call, its name and its arguments, and for each word that is no call.
pub fn add_help(out: &mut Buffer)
    ensures { Appends out.old help out.new }
{
    out.add(
        b"# pages PAGES\n# declare MARK ..\n# new_region\n# subregion REGION\n# push SLOTS\n# [as F] drop\n# [as F] hand_back SLOT BENEATH\n# allocate SLOT REGION KIND\n# first SLOT REGION\n# copy FROM TO\n# fetch BENEATH SLOT\n# clear SLOT\n# load OBJECT WORD TO\n# [as F] set_pointer OBJECT WORD VALUE\n# put OBJECT WORD NUMBER\n# get OBJECT WORD\n# view OBJECT\n# same SLOT SLOT\n# about SLOT\n# report REGION\n# totals\n# audit\n# [as F] delete REGION\n# [as F] delete_all REGION ..\n# locate SLOT\n# summary\n# help\n# why REFUSAL\n",
    );
}

// Adds the line that says why refusal n is given.
pub fn add_why(out: &mut Buffer, n: u32)
    ensures { Appends out.old (why_of n) out.new }
{
    let r = nth_line(
        b"accepted\nthe heap's length is not 64 times 1 to 256\nno live region has that name\nregion 1 is permanent\n64 regions live, the most there can be\nname 1,000,000 was given, the last there is\nno frame, or fewer than the two that the call needs\n32 frames stand, the most there can be\na frame has 1 to 8 slots\na slot named is not there\n16 kinds stand, the most there can be\nno mark, more than 16 marks, or one above 4\nno such kind\nthe region has no page, or the object does not fit its newest one, and no page is free\nthe object slot is null\nthe object has no such word\nthe word is data where a pointer is wanted, or the other way round; for view, some word is no data\nthe pointer breaks the word's mark\na subregion lives; for delete_all, one that is not named with the others\nan outside pointer remains; for delete_all, a slot that leads into a region named, or a free word of a region that is not\nthe region above is at level 16, the deepest\nthe heap's length is not the one made, or none was made, since make refused\nno name, more than 16 names, or one twice\nthe filler is above 3\nno call has that number\nno refusal has that number\n",
        n.min(LAST_REASON),
    );
    out.add(b"# ");
    out.add_number(n as u64);
    out.add(b" ");
    out.add(r);
    out.add(b"\n");
}
