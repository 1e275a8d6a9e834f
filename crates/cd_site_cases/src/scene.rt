//! Scenes: a request as it meets the first route, and what handlers have made of it.
use crate::asked::request_of;
use cd_fill::{Failure, Lent, RequestLine, Scene, Variable};
use cd_rows::{Outcome, RowFault, bytes_of, find, number_of, only};
use cd_text::{List, NoMemory, Octets, decimal};
use cd_tree::{SharedText, Tree};
use cd_wire::{Fields, Request};
use std::alloc::Global;
use std::mem::replace;

/// What a scene has at first: method, path, query, uri, host, minor version, body, fields, and the fields of the answer.
pub fn scene_outcome(alloc: Global, row: &Tree) -> Result<Outcome, RowFault> {
    only(alloc, row, "scene found")?;
    match find(row, "scene") {
        Some(asked) => {
            let request = request_of(alloc, asked)?;
            let bytes = shown_first(alloc, &request)?;
            Ok(Outcome {
                member: "found",
                bytes,
            })
        }
        None => Err(RowFault::Malformed("no scene")),
    }
}

fn shown_first(alloc: Global, request: &Request) -> Result<Octets, NoMemory> {
    let scene = Scene::new(alloc, request)?;
    shown(alloc, &scene)
}

fn shown(alloc: Global, scene: &Scene<'_>) -> Result<Octets, NoMemory> {
    let mut out = Octets::new(alloc);
    put_line(&mut out, &scene.current)?;
    put_part(&mut out, scene.host.as_slice())?;
    let minor = decimal(alloc, u64::from(scene.minor))?;
    put_part(&mut out, minor.as_str().as_bytes())?;
    put_part(&mut out, scene.body.as_slice())?;
    put_fields(&mut out, scene.fields.look())?;
    put_fields(&mut out, Fields::listed(scene.response.as_slice()))?;
    put_part(&mut out, if is_new(scene) { b"new" } else { b"changed" })?;
    Ok(out)
}

fn put_line(out: &mut Octets, line: &RequestLine<'_>) -> Result<(), NoMemory> {
    put_part(out, line.method.as_slice())?;
    put_part(out, line.path.as_slice())?;
    match &line.query {
        Some(query) => {
            out.push(b'?')?;
            put_part(out, query.as_slice())?;
        }
        None => put_part(out, b"-")?,
    }
    put_part(out, line.uri.as_slice())
}

fn put_part(out: &mut Octets, part: &[u8]) -> Result<(), NoMemory> {
    out.append(part)?;
    out.push(b'|')
}

fn put_fields(out: &mut Octets, fields: Fields<'_>) -> Result<(), NoMemory> {
    for field in fields {
        out.append(field.name.as_slice())?;
        out.push(b'=')?;
        out.append(field.value.as_slice())?;
        out.push(b';')?;
    }
    out.push(b'|')
}

// Whether no handler has changed anything.
fn is_new(scene: &Scene<'_>) -> bool {
    scene.original.is_none()
        && scene.variables.is_empty()
        && scene.groups.is_empty()
        && scene.error.is_none()
}

/// The request `asked` of a row.
pub fn asked_of(alloc: Global, row: &Tree) -> Result<Request, RowFault> {
    match find(row, "asked") {
        Some(asked) => request_of(alloc, asked),
        None => Err(RowFault::Malformed("nothing is asked")),
    }
}

/// The scene of a row: that of its request, with its `vars`, its `error`, and its `line` in the place of the first.
///
/// `vars` are pairs of a name and a value, `line` is a list of the method, the path, the query (or null) and the uri, and `error`
/// is a pair of a status and a message.
pub fn scene_of<'r>(
    alloc: Global,
    row: &Tree,
    request: &'r Request,
) -> Result<Scene<'r>, RowFault> {
    let variables = variables_at(alloc, find(row, "vars"))?;
    let line = line_at(alloc, find(row, "line"))?;
    let error = error_at(alloc, find(row, "error"))?;
    let scene = Scene::new(alloc, request)?;
    Ok(changed(scene, variables, line, error))
}

fn changed<'r>(
    scene: Scene<'r>,
    variables: List<Variable>,
    line: Option<RequestLine<'r>>,
    error: Option<Failure>,
) -> Scene<'r> {
    let mut scene = with_variables(scene, variables);
    scene.error = error;
    match line {
        Some(line) => rewritten(scene, line),
        None => scene,
    }
}

fn rewritten<'r>(scene: Scene<'r>, line: RequestLine<'r>) -> Scene<'r> {
    let mut scene = scene;
    let first = replace(&mut scene.current, line);
    Scene {
        original: Some(first),
        ..scene
    }
}

/// The scene with these variables alone.
pub fn with_variables<'r>(scene: Scene<'r>, variables: List<Variable>) -> Scene<'r> {
    let mut scene = scene;
    scene.variables = variables;
    scene
}

fn variables_at(alloc: Global, pairs: Option<&Tree>) -> Result<List<Variable>, RowFault> {
    match pairs {
        None => Ok(List::new(alloc)),
        Some(pairs) => variables_of(alloc, pairs),
    }
}

/// The variables of a list of pairs, each a name and a value.
pub fn variables_of(alloc: Global, pairs: &Tree) -> Result<List<Variable>, RowFault> {
    let Tree::Items(pairs) = pairs else {
        return Err(RowFault::Malformed("variables that are no list"));
    };
    let mut variables = List::new(alloc);
    for pair in pairs.as_slice() {
        variables.push(variable_of(alloc, pair)?)?;
    }
    Ok(variables)
}

fn variable_of(alloc: Global, pair: &Tree) -> Result<Variable, RowFault> {
    let Tree::Items(pair) = pair else {
        return Err(RowFault::Malformed("a variable that is no pair"));
    };
    match pair.as_slice() {
        [Tree::Text(name), value] => variable(alloc, name, value),
        _ => Err(RowFault::Malformed("a variable that is no pair")),
    }
}

fn variable(alloc: Global, name: &SharedText, value: &Tree) -> Result<Variable, RowFault> {
    let value = bytes_of(alloc, value)?;
    Ok(Variable {
        name: name.copy(alloc)?,
        value,
    })
}

fn line_at<'r>(alloc: Global, line: Option<&Tree>) -> Result<Option<RequestLine<'r>>, RowFault> {
    match line {
        None => Ok(None),
        Some(Tree::Items(parts)) => Ok(Some(line_of(alloc, parts.as_slice())?)),
        Some(_) => Err(RowFault::Malformed("a line that is no list")),
    }
}

fn line_of<'r>(alloc: Global, parts: &[Tree]) -> Result<RequestLine<'r>, RowFault> {
    match parts {
        [Tree::Text(method), path, query, uri] => line(alloc, method, path, query, uri),
        _ => Err(RowFault::Malformed("no line")),
    }
}

fn line<'r>(
    alloc: Global,
    method: &SharedText,
    path: &Tree,
    query: &Tree,
    uri: &Tree,
) -> Result<RequestLine<'r>, RowFault> {
    let method = Octets::from_slice(alloc, method.as_str().as_bytes())?;
    let path = bytes_of(alloc, path)?;
    let query = query_of(alloc, query)?;
    let uri = bytes_of(alloc, uri)?;
    Ok(RequestLine {
        method: Lent::octets(method),
        path: Lent::octets(path),
        query,
        uri: Lent::octets(uri),
    })
}

fn query_of<'r>(alloc: Global, query: &Tree) -> Result<Option<Lent<'r, u8>>, RowFault> {
    match query {
        Tree::Null => Ok(None),
        query => Ok(Some(Lent::octets(bytes_of(alloc, query)?))),
    }
}

fn error_at(alloc: Global, error: Option<&Tree>) -> Result<Option<Failure>, RowFault> {
    match error {
        None => Ok(None),
        Some(Tree::Items(parts)) => Ok(Some(failure_of(alloc, parts.as_slice())?)),
        Some(_) => Err(RowFault::Malformed("an error that is no list")),
    }
}

fn failure_of(alloc: Global, parts: &[Tree]) -> Result<Failure, RowFault> {
    match parts {
        [status, message] => {
            let message = bytes_of(alloc, message)?;
            Ok(Failure {
                status: number_of(status)?,
                message,
            })
        }
        _ => Err(RowFault::Malformed("no error")),
    }
}
