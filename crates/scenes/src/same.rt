// Whether two tables are the same.
ghost use Rattle.std.specs.Prelude.{◌≡◌};
ghost use Rattle.rules.specs.Answers.{same_scenes};

use rules::parameters::Scene;

pub fn same_scenes(a: [Scene; 8], b: [Scene; 8]) -> bool
    ensures { result ≡ same_scenes a b }
{
    a == b
}
