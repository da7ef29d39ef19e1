/// The page after its data: the script that draws it.
pub const FOOT: &str = r#"</script>
<script>
'use strict';
// One run of pfair, drawn from the data above. Nothing is fetched, and words go in as text alone.
{
const { floor, ceil, min, max } = Math; // on whole numbers below 2^53
const byId = name => document.getElementById(name);
const isOn = name => byId(name).checked;
const data = JSON.parse(byId('data').textContent);
const { now, schedule, denials, misses, refusals, figures, slot: time } = data;
const { processors, base, cap } = data.settings;
const before = data.before || { delays: [], quanta: [], slots: 0 };
const first = before.slots, { length } = schedule, end = first + length; // the page has slots first to end - 1
const isHere = slot => slot !== null && slot >= first && slot < end;
const names = new Map((data.names || []).map(it => [it.task, it.name]));
const nameOf = number => names.get(number) || 'task ' + number;
const timeOf = slot => String(time ? slot * time.length : slot);

/** How many items come before the first that fails the test. */
function countWhile(list, test) {
  let from = 0, to = list.length;
  while (from < to) {
    const middle = (from + to) >> 1;
    if (test(list[middle])) from = middle + 1; else to = middle;
  }
  return from;
}

// ---- The run

const COLOURS = '#fdb #755 #3b3 #00d #b99 #035 #b9f #570 #ddf #37b #bf0 #330'.split(' ');
const subOfDelay = new Map(before.delays.map(it => [it.event, it.sub]));

/** A task: its join, what it received, and its windows (Baruah et al. 1996), shifted by its delays. */
class Task {
  constructor(number, rank) {
    Object.assign(this, {
      number, rank, name: nameOf(number), colour: COLOURS[rank % COLOURS.length], missed: 0, isShown: true,
      join: Infinity, leave: Infinity, end: -1, earlier: 0, slots: [], delays: [], denied: [], windows: [], stops: [],
    });
  }

  get weight() { return this.cost ? `${this.cost}/${this.period}` : '-'; }

  /** Quanta in slots before this one. */
  received(slot) {
    return this.earlier + countWhile(this.slots, ran => ran < slot);
  }

  /** The window of subtask i, by the delays up to this slot. */
  window(i, slot = Infinity) {
    const { cost, period, join } = this, spare = period - cost;
    const shift = this.delays.reduce((sum, d) => d.slot <= slot && d.sub <= i ? sum + d.by : sum, join);
    const due = ceil(i * period / cost), release = floor((i - 1) * period / cost) + shift;
    const group = spare ? ceil(ceil(due * spare / period) * period / spare) : due;
    return {
      task: this, i, release, deadline: due + shift, from: max(join, release - this.early),
      bit: due - floor(i * period / cost), group: 2 * cost < period ? 0 : group + shift,
    };
  }

  /** A delay stops the task's clock at the release of the subtask that is next in its slot. */
  delay({ event, slot, by }) {
    if (slot >= end) return;
    const sub = subOfDelay.get(event) || this.received(slot) + 1, from = this.window(sub).release;
    this.stops.push({ from, to: from + by });
    this.delays.push({ slot, by, sub });
  }

  /** All windows that reach into the page. */
  close() {
    this.end = min(this.leave, end);
    let i = this.earlier + 1;
    while (i > 1 && this.window(i - 1).deadline > first) i--;
    for (; ; i++) {
      const w = this.window(i), k = i - 1 - this.earlier;
      const ran = k < 0 ? -1 : k < this.slots.length ? this.slots[k] : Infinity;
      if (w.release >= this.end && ran === Infinity) break;
      w.isMissed = w.deadline <= this.end && ran >= w.deadline;
      this.windows.push({ ...w, ran, until: max(w.deadline, min(ran + 1, this.end)) });
    }
  }

    drawn(i) { return this.windows[i - this.windows[0].i]; }

  /** The lag after so many slots, in 1/period. */
  lag(slots) {
    const stopped = this.stops.reduce((sum, stop) => sum + max(0, min(slots, stop.to) - stop.from), 0);
    return this.cost * (slots - this.join - stopped) - this.period * this.received(slots);
  }
}

const KINDS = ['limit', 'leave', 'join', 'delay']; // in a slot, in this order
const denialOf = new Map(denials.map(denial => [denial.event, denial]));
const eventOf = new Map(data.events.map(event => [event.event, event]));
const events = data.events.filter(event => event.slot < now).sort((a, b) => a.slot - b.slot
  || KINDS.indexOf(a.kind) - KINDS.indexOf(b.kind) || a.task - b.task || a.event - b.event);
const tasks = [...new Set(events.map(event => event.task))].filter(Boolean).sort((a, b) => a - b)
  .map((number, rank) => new Task(number, rank));
const taskOf = new Map(tasks.map(task => [task.number, task]));

const rowOf = slot => isHere(slot) ? schedule[slot - first] : before.row || [];
const placeOf = (task, slot) => rowOf(slot).findIndex(quantum => quantum && quantum[0] === task.number);
for (const { task, quanta } of before.quanta) taskOf.get(task).earlier = quanta;
for (let slot = first; slot < end; slot++) {
  for (const quantum of rowOf(slot)) if (quantum) taskOf.get(quantum[0]).slots.push(slot);
}
for (const { task } of misses) taskOf.get(task).missed++;

// load and processors in use, from each slot on that changes one
const states = [{ slot: 0, load: 0, inUse: processors }];
const stateAt = slot => states[countWhile(states, state => state.slot <= slot) - 1];

/** Takes a limit, a join or a leave. */
function change({ slot, kind, count }, task) {
  let state = stateAt(slot);
  if (state.slot < slot) states.push(state = { ...state, slot });
  if (kind === 'limit') {
    state.inUse = count;
  } else {
    task[kind] = slot;
    state.load += (kind === 'join' ? 1 : -1) * task.cost * (base / task.period);
  }
}

for (const event of events) {
  const task = taskOf.get(event.task), { kind, cost, period, early } = event;
  if (kind === 'join') Object.assign(task, { cost, period, early });
  if (!denialOf.has(event.event)) kind === 'delay' ? task.delay(event) : change(event, task);
  else if (task) task.denied.push(event);
}
for (const task of tasks) if (task.join < end) task.close();

/** The subtasks that may run in a slot, in the order of PD2. */
function ranking(slot) {
  return tasks.filter(task => task.join <= slot && slot < task.leave)
    .map(task => task.window(task.received(slot) + 1, slot))
    .filter(w => w.from <= slot)
    .sort((a, b) => a.deadline - b.deadline || b.bit - a.bit || a.bit * (b.group - a.group) || a.task.number - b.task.number);
}

/** The first rule of PD2 that puts one subtask after another. */
function rule(a, b) {
  if (a.deadline !== b.deadline) return `deadline ${b.deadline} after ${a.deadline}`;
  if (a.bit !== b.bit) return 'same deadline, bit 0 after 1';
  const same = `same deadline, both bits ${a.bit}, `;
  if (a.bit && a.group !== b.group) return `${same}group deadline ${b.group} after ${a.group}`;
  return `${same}${a.bit ? 'same group deadline, ' : ''}task ${b.task.number} after ${a.task.number}`;
}

function seat({ task }, slot, inUse) {
  const place = placeOf(task, slot), last = slot ? placeOf(task, slot - 1) : -1;
  if (last === place) return `runs on p${place}, kept`;
  return `runs on p${place}, lowest free${last < inUse ? '' : `, p${last} is out of use`}`;
}

/** What becomes of one in the ranking, in the words of `pfair why`. */
function answer(w, rank, ranked, slot) {
  const { inUse } = stateAt(slot), last = ranked[inUse - 1];
  const does = rank <= inUse ? seat(w, slot, inUse)
    : `waits behind ${names.get(last.task.number) || last.task.number}/${last.i}: ${rule(last, w)}`;
  if (slot < w.release) return `${does}; early by ${w.release - slot}`;
  return slot < w.deadline ? does : `${does}; late by ${slot + 1 - w.deadline}`;
}

// ---- The heading

const loadText = state => (state.load / base).toFixed(4);

/** Whether the windows missed and the lags that are counted here are those of the data. */
function isSame() {
  const told = new Set(misses.filter(({ deadline, ran }) => deadline <= end && (ran === null || ran >= first))
    .map(({ task, sub, deadline }) => `${task}/${sub} ${deadline}`));
  return tasks.every(({ number, windows }) => windows.every(w => !w.isMissed || told.delete(`${number}/${w.i} ${w.deadline}`)))
    && !told.size && (end < now || data.lags.every(({ task, lag }) => taskOf.get(task).lag(now) === lag));
}

function tellRun() {
  const fullest = states.reduce((a, b) => b.load * a.inUse > a.load * b.inUse ? b : a), verdict = byId('verdict');
  document.title = (byId('title').textContent = data.title || 'Schedule') + ' - pfair';
  verdict.className = misses.length ? 'missed' : denials.length + refusals.length ? 'warn' : '';
  verdict.textContent = `missed windows ${misses.length}; denied events ${denials.length}; refused changes ${refusals.length}; `
    + `load ${loadText(fullest)} of ${fullest.inUse} processors in use (slot ${fullest.slot})`;
  byId('facts').textContent = `slots ${now}${time ? ` of ${time.length} ${time.unit}` : ''}; tasks ${tasks.length}; `
    + `processors ${processors}; base ${base}; cap ${cap}` + (length < now ? `; shown ${first} to ${end}` : '')
    + (isSame() ? '' : '; what is drawn DIFFERS from the data');
}

// ---- The picture: one canvas as large as its place, drawn anew as it scrolls

const picture = byId('picture'), plane = picture.firstElementChild, canvas = plane.firstElementChild, overview = byId('overview');
const pen = canvas.getContext('2d'), barPen = overview.getContext('2d');

/** Makes a canvas as large as this, in the screen's own pixels. */
function size(on, wide, tall) {
  const scale = devicePixelRatio;
  Object.assign(on.canvas, { width: wide * scale, height: tall * scale });
  on.scale(scale, scale);
}

function fill(colour, left, top, wide, tall, on = pen) {
  on.fillStyle = colour;
  on.fillRect(left, top, wide, tall);
}

function write(colour, words, x, y, align = 'left') {
  Object.assign(pen, { fillStyle: colour, textAlign: align });
  pen.fillText(words, x, y);
}

function trace([colour, thick], points, dashes = []) {
  Object.assign(pen, { strokeStyle: colour, lineWidth: thick });
  pen.setLineDash(dashes);
  pen.beginPath();
  for (const point of points) pen.lineTo(...point);
  pen.stroke();
}

function frame([colour, thick], left, top, wide, tall, on = pen) {
  Object.assign(on, { strokeStyle: colour, lineWidth: thick });
  on.setLineDash([]);
  on.strokeRect(left, top, wide, tall);
}

const INKS = 'back text soft rule grid band window missed fine lag stopped unused chosen'.split(' ');
const RULER = 24, ROW = 20, LETTER = 6.7, LAG = 34;
const GUTTER = ceil(16 + LETTER * max(12, ...tasks.map(task => max(task.name.length, task.weight.length))));
const lagQuanta = max(1, ...figures.map(f => ceil(max(-f.lag_min, f.lag_max) / f.period)));
const TASKS_TOP = RULER + ROW * processors + 8;
const windowsHeight = () => isOn('show-windows') ? 44 : 24;
const taskHeight = () => windowsHeight() + (isOn('show-lag') ? LAG : 0);
const room = () => picture.clientWidth - GUTTER;
let cell = 20, chosen = null, shown = tasks, ink = {};
let from, to, left, width, height; // the slots in view, and where
const x = slot => GUTTER + cell * (slot - first) - left;
const isInView = slot => slot >= from && slot < to;
const edgeOf = w => w.isMissed ? [ink.missed, 2] : [ink.window, 1];

function layOut() {
  ({ clientWidth: width, clientHeight: height } = picture);
  Object.assign(plane.style, { width: GUTTER + cell * length + 16 + 'px', height: TASKS_TOP + taskHeight() * shown.length + 4 + 'px' });
  Object.assign(canvas.style, { width: width + 'px', height: height + 'px' });
  Object.assign(picture.dataset, { cell, gutter: GUTTER, tasks: shown.length });
  size(pen, width, height);
  Object.assign(pen, { font: '11px ui-monospace, monospace', textBaseline: 'middle' });
  layOutOverview();
  draw();
}

/** Draws what is in view, and over it names and ruler, which stay. */
function draw() {
  const { scrollTop: top } = picture, tall = taskHeight();
  left = picture.scrollLeft;
  [from, to] = [first + floor(left / cell), min(end, first + ceil((left + room()) / cell))];
  const rows = shown.map((task, k) => ({ task, y: TASKS_TOP + tall * k - top })).filter(({ y }) => y > -tall && y < height);
  Object.assign(picture.dataset, { from, to });
  byId('view-slots').textContent = `Slots ${from} to ${to} of ${now}`;
  fill(ink.back, 0, 0, width, height);
  const step = drawGrid();
  for (let p = 0; p < processors; p++) drawProcessor(p, RULER + 2 + ROW * p - top);
  for (const { task, y } of rows) drawTask(task, y);
  drawNames(rows, top);
  drawRuler(step);
  drawOverview();
}

/** The lines of slots. Answers the step of the ruler. */
function drawGrid() {
  const step = [1, 2, 5, 10, 20, 50, 100, 200, 500].find(s => s * cell >= (timeOf(now).length + 2) * LETTER) || 1000;
  if (chosen !== null) fill(ink.chosen, x(chosen), 0, cell, height);
  for (let t = from; t <= to; t++) {
    if (cell >= 5 || t % step === 0) fill(t % step ? ink.grid : ink.rule, x(t), 0, 1, height);
  }
  return step;
}

function drawProcessor(p, y) {
  if (y < 0 || y > height) return;
  for (let t = from; t < to; t++) {
    const quantum = rowOf(t)[p];
    if (quantum) drawQuantum(taskOf.get(quantum[0]).drawn(quantum[1]), x(t), y, 16, quantum[0]);
    else if (p >= stateAt(t).inUse) fill(ink.unused, x(t), y, cell, 16);
  }
}

function drawNames(rows, top) {
  fill(ink.back, 0, 0, GUTTER, height);
  for (let p = 0; p < processors; p++) write(ink.text, 'p' + p, 8, RULER + 11 + ROW * p - top);
  for (const { task, y } of rows) {
    fill(ink.rule, 0, y - 2, width, 1);
    write(task.missed ? ink.missed : ink.text, task.name, 8, y + 10);
    if (taskHeight() > 30) write(ink.soft, task.weight, 8, y + 24);
    if (taskHeight() > 50 && task.missed) write(ink.missed, task.missed + ' missed', 8, y + 38);
  }
}

function drawRuler(step) {
  fill(ink.back, 0, 0, width, RULER);
  for (let t = ceil(from / step) * step; t <= to; t += step) write(ink.soft, timeOf(t), x(t), 13, 'center');
  fill(ink.back, 0, 0, GUTTER - 12, RULER);
  write(ink.soft, time ? time.unit : 'slot', 8, 13);
  fill(ink.rule, 0, RULER - 1, width, 1);
  fill(ink.rule, GUTTER - 1, RULER, 1, height);
}

/** The box of a quantum: red and thicker where it was late, grey and bare where its task is not shown. */
function drawQuantum(w, left, y, tall, number) {
  const gap = cell < 6 ? 0 : 1, { isShown, colour, rank } = w.task;
  fill(isShown ? colour : ink.stopped, left + gap, y, cell - 2 * gap, tall);
  if (cell >= 5) frame(edgeOf(w), left + gap + .5, y + .5, cell - 2 * gap - 1, tall - 1);
  else if (w.isMissed) fill(ink.missed, left, y + tall - 3, cell, 3);
  if (!isShown || String(number).length * LETTER + 2 > cell) return;
  write(rank % 2 ? '#fff' : '#000', number, left + cell / 2, y + tall / 2 + 1, 'center');
}

function drawTask(task, y) {
  const marks = y + windowsHeight() - 6;
  if (task.join < end) drawInside(task, y, marks);
  for (const { slot, event } of task.denied) if (isInView(slot)) {
    const words = '\u00d7' + (cell < 8 ? '' : ` event ${event} ${denialOf.get(event).reason}`);
    fill(ink.back, x(slot), marks - 6, LETTER * words.length, 12);
    write(ink.missed, words, x(slot), marks);
  }
}

function drawInside(task, y, marks) {
  const start = max(task.join, from), stop = min(task.end, to), { windows } = task;
  for (const halt of task.stops) {
    const a = max(halt.from, start), b = max(a, min(halt.to, stop));
    fill(ink.stopped, x(a), y, cell * (b - a), taskHeight() - 4);
  }
  for (let k = countWhile(windows, w => w.until <= from); k < windows.length && windows[k].from < to; k++) {
    drawWindow(windows[k], y + 2, marks);
  }
  if (isOn('show-lag') && start < stop) drawLag(task, y + taskHeight() - LAG / 2 - 1.5, start, stop);
  if (isInView(task.join)) write(ink.fine, '\u25ba', x(task.join), marks);
  if (isInView(task.leave - 1)) write(ink.fine, '\u25c4', x(task.leave), marks, 'right');
}

/** A bracket from release to deadline, dashes before it where the task may run early. */
function drawWindow(w, top, marks) {
  const brackets = isOn('show-windows'), y = brackets ? top + (w.i - 1) % 2 * 16 : top, foot = y + 13.5;
  const gap = cell < 8 ? 0 : 2, stop = min(w.deadline, w.task.end), a = x(w.release) + gap, b = x(stop) - gap;
  if (brackets && w.from < w.release) trace([ink.window, 1], [[x(w.from), foot], [x(w.release), foot]], [2, 2]);
  if (brackets && w.release < stop) trace(edgeOf(w), [[a, y], [a, foot], [b, foot], [b, stop === w.deadline ? y : foot]]);
  if (isInView(w.ran)) drawQuantum(w, x(w.ran), y, brackets ? 11 : 14, placeOf(w.task, w.ran));
  if (isOn('show-groups') && w.bit && w.group && w.group <= w.task.end) write(ink.window, '\u25b2', x(w.group), marks, 'center');
}

function drawLag(task, middle, start, stop) {
  const points = [];
  for (let t = start; t <= stop; t++) {
    const y = middle - 14 * task.lag(t) / (task.period * lagQuanta);
    points.push([x(t), y], [x(min(t + 1, stop)), y]);
  }
  trace([ink.soft, 1], [[x(start), middle], [x(stop), middle]], [1, 3]);
  trace([ink.lag, 1], points);
}

// ---- The overview: how busy each column of slots is, and which are late

const quanta = [0], places = [0]; // in the slots before each: quanta, and places in use
schedule.forEach((row, k) => {
  quanta.push(quanta[k] + row.filter(Boolean).length);
  places.push(places[k] + stateAt(first + k).inUse);
});
const lateSlots = [...misses.map(miss => miss.deadline), ...misses.map(miss => miss.ran)].filter(isHere);
let columns, busy, late;

function layOutOverview() {
  const { clientWidth: wide, clientHeight: tall } = overview, startOf = column => floor(column * length / columns);
  size(barPen, wide, tall);
  columns = min(wide, length);
  busy = Array.from({ length: columns }, (_, column) => {
    const a = startOf(column), b = startOf(column + 1);
    return floor(100 * (quanta[b] - quanta[a]) / (places[b] - places[a]));
  });
  late = [...new Set(lateSlots.map(slot => ceil((slot - first + 1) * columns / length) - 1))].sort((a, b) => a - b);
  Object.assign(overview.dataset, { columns, busy, late });
}

function drawOverview() {
  const { clientWidth: wide, clientHeight: tall } = overview, step = wide / columns, at = slot => (slot - first) * wide / length;
  fill(ink.band, 0, 0, wide, tall, barPen);
  busy.forEach((percent, column) => {
    const bar = (tall - 8) * percent / 100;
    fill(ink.rule, column * step, tall - bar, step - (step < 5 ? 0 : 1), bar, barPen);
  });
  for (const column of late) fill(ink.missed, column * step, 0, max(step - 1, 2), 6, barPen);
  const left = min(at(from), wide - 8);
  frame([ink.lag, 2], left + 1, 1, max(at(to) - left, 8) - 2, tall - 2, barPen);
  if (chosen !== null) fill(ink.text, at(chosen + .5) - 1, 0, 2, tall, barPen);
}

// ---- The panel and the tables

function add(place, tag, words = '', name = '') {
  const made = document.createElement(tag);
  made.textContent = words;
  made.className = name;
  place.append(made);
  return made;
}

function centre(slot) {
  picture.scrollLeft = cell * (slot - first + .5) - room() / 2;
}

/** Chooses a slot: the panel tells it, the picture shows it. */
function choose(slot) {
  if (!length) return;
  chosen = min(max(slot, first), end - 1);
  byId('slot').value = chosen;
  const at = cell * (chosen - first) - picture.scrollLeft;
  if (at <= -cell || at >= room()) centre(chosen);
  tellSlot(byId('panel'));
  draw();
}

function tellSlot(panel) {
  const ranked = ranking(chosen), state = stateAt(chosen);
  panel.textContent = '';
  panel.dataset.slot = chosen;
  add(panel, 'h2', `Slot ${chosen}${time ? `, ${timeOf(chosen)} ${time.unit}` : ''}`);
  add(panel, 'p', `processors in use ${state.inUse} of ${processors}; load ${loadText(state)}; may run ${ranked.length}`);
  for (const { event, kind, task } of events.filter(it => it.slot === chosen)) {
    const denial = denialOf.get(event);
    add(panel, 'p', `event ${event}: ${kind}${task ? ' of ' + nameOf(task) : ''}${denial ? ', denied: ' + denial.reason : ''}`);
  }
  const items = ranked.map((w, k) => ({
    rank: k + 1, task: w.task.number, sub: w.i, window: `${w.release} to ${w.deadline}`, bit: w.bit, group: w.group,
    answer: answer(w, k + 1, ranked, chosen),
  }));
  addTable(panel, 'Who may run', ['rank', 'task', 'sub', 'window', 'bit', 'group', 'answer'], items,
    ({ rank }) => (rank > state.inUse ? '' : 'runs ') + (ranked[rank - 1].deadline <= chosen ? 'late' : ''));
}

/** Numbers as numbers, other words as words, none after both. */
function compare(a, b, sign) {
  if (a === null || b === null) return (a === null) - (b === null);
  return sign * (typeof a === 'number' ? a - b : a.localeCompare(b, 'en', { numeric: true }));
}

/** A table that its heads sort, of few lines at first. Answers what cuts it to the lines that pass a test. */
function addTable(place, label, columns, items, classOf) {
  const table = add(place, 'table'), heads = add(add(table, 'thead'), 'tr'), body = add(table, 'tbody'), more = add(place, 'button');
  let most = 500, order = items, isKept = () => true;
  const show = () => {
    const kept = order.filter(isKept);
    body.textContent = '';
    for (const item of kept.slice(0, most)) {
      const line = add(body, 'tr', '', classOf(item));
      for (const name of columns) addCell(line, name, item[name]);
    }
    more.textContent = 'show all ' + kept.length;
    if (kept.length > most) place.append(more); else more.remove();
    return kept.length;
  };
  for (const name of columns) {
    const head = add(heads, 'th', '', name);
    add(head, 'button', name).onclick = () => {
      const sign = head.getAttribute('aria-sort') === 'ascending' ? -1 : 1;
      for (const other of heads.children) other.removeAttribute('aria-sort');
      head.setAttribute('aria-sort', sign > 0 ? 'ascending' : 'descending');
      order = [...items].sort((a, b) => compare(a[name], b[name], sign));
      show();
    };
  }
  table.setAttribute('aria-label', label);
  more.onclick = () => {
    most = Infinity;
    show();
  };
  show();
  return test => {
    isKept = test;
    return show();
  };
}

function addCell(line, name, value) {
  const made = add(line, 'td', '', name);
  if (value === null) return;
  if (['slot', 'deadline', 'ran'].includes(name) && isHere(value)) add(made, 'button', value).dataset.goal = value;
  else made.textContent = name === 'task' ? nameOf(value) : value;
  if (name === 'task' && taskOf.has(value)) made.style.borderLeft = '12px solid ' + taskOf.get(value).colour;
}

/** A list of the data. Answers what cuts it to the tasks asked for; lines of no task stay. */
function addList(place) {
  const items = data[place.dataset.of], count = items.length, heading = place.previousElementSibling, title = heading.textContent;
  const columns = place.dataset.columns.split(' '), numberIn = ({ task, event }) => task || event && eventOf.get(event).task;
  const keep = count && addTable(place, title, columns, items, item => item.missed ? 'late' : '');
  return isAsked => {
    const kept = keep && keep(item => !numberIn(item) || isAsked(numberIn(item)));
    heading.textContent = `${title} (${kept < count ? kept + ' of ' : ''}${count})`;
  };
}

const cuts = [...document.querySelectorAll('.list')].map(addList);

// ---- What the reader does

/** Another width of slots; what is there stays there. */
function zoom(wide, at = room() / 2) {
  const slot = (picture.scrollLeft + at) / cell;
  cell = min(64, max(2, wide));
  layOut();
  picture.scrollLeft = slot * cell - at;
}
const zoomIn = at => zoom(ceil(cell * 1.2), at);
const zoomOut = at => zoom(floor(cell / 1.2), at);

/** Whether one of the words asks for a task: number, range, or part of its name. */
function askedBy(words) {
  const tests = words.toLowerCase().split(/[\s,]+/).filter(Boolean).map(word => {
    const [, low, high = low] = /^(\d+)(?:-(\d+))?$/.exec(word) || [];
    return number => low ? number >= low && number <= high : nameOf(number).toLowerCase().includes(word);
  });
  return number => !tests.length || tests.some(test => test(number));
}

/** Shows the tasks asked for, in picture and tables. */
function filter() {
  const isAsked = askedBy(byId('filter').value);
  for (const task of tasks) task.isShown = isAsked(task.number) && (task.missed > 0 || !isOn('show-late'));
  shown = tasks.filter(task => task.isShown);
  byId('shown').textContent = `${shown.length} of ${tasks.length} tasks`;
  for (const cut of cuts) cut(isAsked);
  layOut();
}

let goal = null; // the slot of the address

function go(slot, isKeyHeld) {
  choose(slot);
  goal = chosen;
  if (!isKeyHeld) writeAddress();
}

/** Puts what the reader chose and searched into the address, as no new entry of the history. */
function writeAddress() {
  const words = byId('filter').value, parts = [];
  if (goal !== null) parts.push('slot=' + goal);
  if (words) parts.push('task=' + encodeURIComponent(words));
  history.replaceState(null, '', '#' + parts.join('&'));
}

/** Goes where the address says: `#slot=5&task=brake,3-9`, both or one. */
function readAddress() {
  const asked = new URLSearchParams(location.hash.slice(1).replace(/\+/g, '%2B')), slot = asked.get('slot');
  byId('filter').value = asked.get('task') || '';
  filter();
  if (!/^\d+$/.test(slot)) return;
  choose(+slot);
  goal = chosen;
}

function repaint(isPaper) {
  const root = document.documentElement;
  root.classList.toggle('paper', isPaper);
  const style = getComputedStyle(root);
  for (const name of INKS) ink[name] = style.getPropertyValue('--' + name);
  layOut();
}

document.onkeydown = e => {
  if (e.ctrlKey || e.metaKey || e.altKey || e.target.matches('input:not([type=checkbox])')) return;
  const slot = chosen === null ? from : chosen, far = chosen === null ? 0 : e.shiftKey ? 10 : 1;
  const acts = {
    ArrowRight: () => go(slot + far, e.repeat), ArrowLeft: () => go(slot - far, e.repeat), Home: () => go(first), End: () => go(end - 1),
    '+': () => zoomIn(), '-': () => zoomOut(), '/': () => byId('filter').focus(),
  };
  if (!acts[e.key]) return;
  e.preventDefault();
  acts[e.key]();
};
document.onkeyup = () => { if (goal !== null) writeAddress(); };
document.onclick = ({ target }) => {
  if (!target.dataset.goal) return;
  go(+target.dataset.goal);
  picture.scrollIntoView({ block: 'nearest' });
};
picture.onclick = e => {
  const slot = first + floor((e.offsetX - GUTTER + picture.scrollLeft) / cell);
  if (e.offsetX >= GUTTER && slot < end) go(slot);
};
picture.onwheel = e => {
  if (!e.ctrlKey && !e.metaKey) return;
  e.preventDefault();
  (e.deltaY < 0 ? zoomIn : zoomOut)(e.offsetX - GUTTER);
};
picture.onscroll = () => requestAnimationFrame(draw);
overview.onpointermove = e => {
  if (e.buttons & 1) centre(first + floor(e.offsetX * length / overview.clientWidth));
};
overview.onpointerdown = e => {
  e.target.setPointerCapture(e.pointerId);
  e.target.onpointermove(e);
};
byId('zoom-in').onclick = () => zoomIn();
byId('zoom-out').onclick = () => zoomOut();
byId('zoom-fit').onclick = () => zoom(floor((room() - 16) / length));
byId('tools').onchange = filter;
byId('filter').oninput = () => {
  filter();
  writeAddress();
};
byId('slot').onchange = ({ target }) => { if (target.value) go(floor(target.value)); };
Object.assign(byId('slot'), { min: first, max: end - 1 });
matchMedia('(prefers-color-scheme: dark)').onchange = () => repaint(false);
onhashchange = readAddress;
onbeforeprint = () => repaint(true);
onafterprint = () => repaint(false);
new ResizeObserver(layOut).observe(picture);
tellRun();
repaint(false);
readAddress();
const miss = misses.find(({ deadline }) => deadline >= first && deadline <= end);
if (goal === null && miss) choose(miss.deadline);
}
</script>
</body>
</html>
"#;
