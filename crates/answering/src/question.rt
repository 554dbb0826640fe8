// The question of an accepted file.
ghost use Rattle.std.specs.Prelude.{◌≡◌, length};
ghost use Rattle.table.specs.Encode.{clause_words};
ghost use Rattle.table.specs.File.{judge, table_in};

use text::part;
use words::fields;
use words::fields::wide;

// Its number, which is the last.
pub fn number(file: &[u32]) -> usize
    requires { (judge file.now).status ≡ 0 }
    ensures { result ≡ length (table_in file.now).clauses }
{
    wide(file[file.len() - 3]) - 1
}

// Its words.
pub fn words(file: &[u32]) -> &[u32]
    requires { (judge file.now).status ≡ 0 }
    ensures { result.now ≡ clause_words (table_in file.now).question }
{
    let at = wide(file[file.len() - 4]);
    let size = wide(fields::following(file[at])) + 1;
    part::front(part::rest(file, at), size)
}

// How many literals it has.
pub fn literals(file: &[u32]) -> usize
    requires { (judge file.now).status ≡ 0 }
    ensures { result ≡ length (table_in file.now).question.literals }
{
    let at = wide(file[file.len() - 4]);
    wide(fields::literals(file[at]))
}
