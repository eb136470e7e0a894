// The tariff file as a C function: file bytes in, the printed text into a lent buffer, its length back.

#![tactic(auto)]

ghost use Rattle.std.specs.Prelude.{◌≡◌};
ghost use Rattle.answer_text.specs.Buffer.{leaves, print};
ghost use Rattle.printed.specs.Printed.{printed};

#[unsafe(no_mangle)]
pub extern "C" fn guineatwirl_join_file(file: &[u8], text: &mut [u8]) -> usize
    ensures { leaves result text.new ≡ print (printed file.now) text.old }
{
    join_file::join_file(file, text)
}
