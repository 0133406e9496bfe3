//! The model of a load.

ghost use Rattle.std.specs.Prelude.{◌≡◌};
ghost use Rattle.ale_host.specs.LoadModel.{load_model};

/// The text of the model of a load: a company with a central system, CORE, and two branches, P1 and P2. P1 gets each material in the older
/// release, P2 those whose type is FERT, and of a material with plants those with a storage location `0001`.
pub(crate) fn load_model() -> &'static [u8]
    ensures { result.now ≡ load_model }
{
    LOAD_MODEL
}

const LOAD_MODEL: &'static [u8] = b"\
releases = [\"40A\", \"46C\"]\n\
[[system]]\n\
name = \"CORE\"\n\
[[system]]\n\
name = \"P1\"\n\
[[system]]\n\
name = \"P2\"\n\
[[segment]]\n\
type = \"Z1MAT\"\n\
version = [\n\
\x20\x20{ name = \"Z2MAT000\", release = \"40A\", adds = [\"MATNR 18\", \"MTART 4\"] },\n\
\x20\x20{ name = \"Z2MAT001\", release = \"46C\", adds = [\"MEINS 3\"] },\n\
]\n\
[[segment]]\n\
type = \"Z1PLT\"\n\
version = [{ name = \"Z2PLT000\", release = \"40A\", adds = [\"WERKS 4\", \"DISPO 3\"] }]\n\
[[segment]]\n\
type = \"Z1STO\"\n\
version = [{ name = \"Z2STO000\", release = \"40A\", adds = [\"LGORT 4\"] }]\n\
[[segment]]\n\
type = \"Z1QUE\"\n\
version = [{ name = \"Z2QUE000\", release = \"40A\", adds = [\"OBJ 10\", \"QA 30\", \"QB 30\"] }]\n\
[[idoctype]]\n\
name = \"ZMAT01\"\n\
segment = [\n\
\x20\x20{ type = \"Z1MAT\", mandatory = true },\n\
\x20\x20{ type = \"Z1PLT\", parent = \"Z1MAT\", max = 9999 },\n\
\x20\x20{ type = \"Z1STO\", parent = \"Z1PLT\", mandatory = true, max = 9999 },\n\
]\n\
[[idoctype]]\n\
name = \"ZQUE01\"\n\
segment = [{ type = \"Z1QUE\", mandatory = true }]\n\
[[kind]]\n\
name = \"MAT\"\n\
segment = \"Z1MAT\"\n\
key = \"MATNR\"\n\
[[kind]]\n\
name = \"QUE\"\n\
segment = \"Z1QUE\"\n\
key = \"OBJ\"\n\
[[message]]\n\
name = \"ZMAT\"\n\
idoctype = \"ZMAT01\"\n\
kind = \"MAT\"\n\
required = [\"MTART\"]\n\
pointers = [\"MTART\", \"MEINS\"]\n\
[[message]]\n\
name = \"ZQUE\"\n\
idoctype = \"ZQUE01\"\n\
kind = \"QUE\"\n\
posting = \"insert\"\n\
[[filter]]\n\
name = \"MTART\"\n\
message = \"ZMAT\"\n\
segment = \"Z1MAT\"\n\
field = \"MTART\"\n\
[[filter]]\n\
name = \"LGORT\"\n\
message = \"ZMAT\"\n\
segment = \"Z1STO\"\n\
field = \"LGORT\"\n\
[[row]]\n\
sender = \"CORE\"\n\
receiver = \"P1\"\n\
message = \"ZMAT\"\n\
[[row]]\n\
sender = \"CORE\"\n\
receiver = \"P2\"\n\
message = \"ZMAT\"\n\
group = [{ MTART = [\"FERT\"], LGORT = [\"0001\"] }]\n\
[[row]]\n\
sender = \"CORE\"\n\
receiver = \"P1\"\n\
message = \"ZQUE\"\n\
[[outbound]]\n\
sender = \"CORE\"\n\
receiver = \"P1\"\n\
message = \"ZMAT\"\n\
release = \"40A\"\n\
outq = [{ text = \"M_\", segment = \"Z1MAT\", field = \"MATNR\" }]\n\
inq = [{ text = \"M_\", segment = \"Z1MAT\", field = \"MATNR\" }]\n\
[[outbound]]\n\
sender = \"CORE\"\n\
receiver = \"P2\"\n\
message = \"ZMAT\"\n\
[[outbound]]\n\
sender = \"CORE\"\n\
receiver = \"P1\"\n\
message = \"ZQUE\"\n\
outq = [{ segment = \"Z1QUE\", field = \"QA\" }, { segment = \"Z1QUE\", field = \"QB\" }]\n\
inq = [{ segment = \"Z1QUE\", field = \"QA\" }]\n\
[[inbound]]\n\
receiver = \"P1\"\n\
sender = \"CORE\"\n\
message = \"ZMAT\"\n\
[[inbound]]\n\
receiver = \"P2\"\n\
sender = \"CORE\"\n\
message = \"ZMAT\"\n\
[[inbound]]\n\
receiver = \"P1\"\n\
sender = \"CORE\"\n\
message = \"ZQUE\"\n";
